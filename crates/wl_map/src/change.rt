//! What ends ask of each other.

/// What one direction is to become.
#[derive(Clone, Copy, Debug, PartialEq, Eq)]
pub enum Change {
    /// The default mapping: every TID on every link set up.
    Default,
    /// For each TID from 0 to 7 that is named the bitmap of its links, bit n for link n. A TID that
    /// isn't named keeps its links.
    Sets([Option<u16>; 8]),
}

/// A request for new mappings (IEEE Std 802.11be, 35.3.7).
#[derive(Clone, Copy, Debug, PartialEq, Eq)]
pub struct MapAsk {
    /// The dialog token, which the reply carries too.
    pub token: u8,
    /// The change of the direction from the AP to the station. None where it is to stay.
    pub down: Option<Change>,
    /// The change of the direction from the station to the AP. None where it is to stay.
    pub up: Option<Change>,
}

/// Why an end can't ask.
#[derive(Clone, Copy, Debug, PartialEq, Eq)]
pub enum MapRefusal {
    /// An own ask stands, with this token.
    Busy(u8),
    /// No direction is named, or a change would leave a TID without a link or with one that isn't set
    /// up. With no link set up each change would.
    NotValid,
}
