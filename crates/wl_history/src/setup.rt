//! What an end has set up.

use wl_elem::LinkSet;
use wl_map::MapEnd;
use wl_replay::KeyRing;

/// What of an end's settings its commands and what it hears may change. What was agreed for good, as
/// addresses and the base of all keys, is in its start.
#[derive(Clone, Copy, Debug, PartialEq, Eq)]
pub struct Setup {
    /// The links set up (IEEE Std 802.11be, 35.3.5).
    pub links: LinkSet,
    /// By link ID, whether the radio is on.
    pub radios: [bool; 15],
    /// The send size and the receive size of the data lanes, 1 to 256.
    pub window: u16,
    /// The keys that it holds.
    pub keys: KeyRing,
    /// The mappings of TIDs to links, and the own ask for others (IEEE Std 802.11be, 35.3.7).
    pub maps: MapEnd,
    /// The dialog token of the last request that it made, 0 before the first.
    pub token: u8,
}
