//! Requests for multi-link setup and their replies (IEEE Std 802.11be, 35.3.5).

ghost use Rattle.std.specs.Prelude.{◌≡◌};
ghost use Rattle.wl_setup.specs.Messages.{same_ask};

use wl_elem::{LinkId, MacAddr};

/// A request for multi-link setup.
#[derive(Clone, Copy, Debug, PartialEq, Eq)]
pub struct SetupAsk {
    /// The link that carries the request, which is one of the asked links.
    pub on: LinkId,
    /// The MLD address of the station.
    pub mld: MacAddr,
    /// By link ID, the address of the station on each asked link, and none on the others.
    pub macs: [Option<MacAddr>; 15],
}

/// The reply to a request for multi-link setup.
#[derive(Clone, Copy, Debug, PartialEq, Eq)]
pub struct SetupReply {
    /// The link that carries the reply, which is one of the links that it names.
    pub on: LinkId,
    /// By link ID, the status code of each link that the reply names, and none of the others.
    pub status: [Option<u16>; 15],
}

/// Why a station doesn't ask for links.
#[derive(Clone, Copy, Debug, PartialEq, Eq)]
pub enum SetupRefusal {
    /// Links are set up already.
    Joined,
    /// The links to ask for lack the carrying link, or one of them has no address of the station.
    NotValid,
    /// The station's radio is off on the carrying link.
    Unpowered,
}

/// A request, and the reply that it got.
#[derive(Clone, Copy, Debug, PartialEq, Eq)]
pub(crate) struct Exchange {
    pub(crate) ask: SetupAsk,
    pub(crate) reply: SetupReply,
}

/// Whether two requests have the same carrying link, the same MLD address and the same links with the
/// same addresses.
pub(crate) fn is_same_ask(a: &SetupAsk, b: &SetupAsk) -> bool
    ensures { result ≡ same_ask a.now b.now }
{
    a == b
}
