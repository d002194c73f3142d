//! What is said of each link.

use wl_elem::{Elements, LinkId, List, MacAddr};

/// What a station asks for on one more link of a request (IEEE Std 802.11be, 35.3).
#[derive(Debug, Drop)]
pub struct LinkAsk {
    /// The link that the profile is of.
    pub link: LinkId,
    /// The station's MAC address on it, where STA Info has one.
    pub mac: Option<MacAddr>,
    /// Capability Information.
    pub capability: u16,
    /// The profile's elements, with those that a complete profile inherits from the frame.
    pub elements: Elements,
}

/// What a link was answered in a response (IEEE Std 802.11be, 35.3).
#[derive(Clone, Copy, Debug, PartialEq, Eq)]
pub struct LinkState {
    /// The link.
    pub link: LinkId,
    /// Capability Information.
    pub capability: u16,
    /// Status Code, 0 where the link was accepted.
    pub status: u16,
}

/// What a request says of its profiles' links, in the order of the profiles.
pub type LinkAsks = List<LinkAsk>;

/// What a response says of each link: of the one that carries it first, then in the order of the
/// profiles.
pub type LinkStates = List<LinkState>;
