//! What two ends start with.

ghost use Rattle.std.specs.Prelude.{◌≡◌, IfOk, IfSome};

use std::alloc::Global;
use wl_elem::{EndId, LinkId, LinkSet, List, MacAddr, Memory};

/// A link, with its two addresses (IEEE Std 802.11be, 35.3).
#[derive(Clone, Copy, Debug, PartialEq, Eq)]
pub struct LinkStart {
    /// The link's ID.
    pub id: LinkId,
    /// The address of the affiliated AP.
    pub ap: MacAddr,
    /// The address of the affiliated station.
    pub sta: MacAddr,
}

/// The links, in ascending order of their IDs.
pub type LinkStarts = List<LinkStart>;

/// What one end starts with.
#[derive(Debug, Drop)]
pub struct EndStart {
    /// Which end it is.
    pub end: EndId,
    /// The AP MLD's address.
    pub ap: MacAddr,
    /// The station MLD's address.
    pub sta: MacAddr,
    /// The base of all keys.
    pub key: [u8; 16],
    /// All links there are.
    pub links: LinkStarts,
    /// Whether all links are set up, or none.
    pub associated: bool,
    /// The send size and the receive size of the data lanes.
    pub window: u16,
    /// The links that the AP accepts.
    pub accept: LinkSet,
    /// Whether this end denies each mapping that it is asked for.
    pub deny: bool,
    /// The first key number that it sends under.
    pub first_key: u16,
    /// The first packet number under that key.
    pub first_pn: u64,
    /// The newest key number that it holds.
    pub newest: u16,
}

/// What both ends start with.
#[derive(Debug, Drop)]
pub struct Start {
    /// The AP MLD.
    pub ap: EndStart,
    /// The station MLD.
    pub sta: EndStart,
}

impl EndStart {
    /// The same again.
    pub fn copy(&self, alloc: Global) -> Result<EndStart, Memory>
        ensures { IfOk result (λ s. s ≡ self.now) }
    {
        let key = self.key;
        let links = List::from_slice(alloc, self.links.as_slice())?;
        Ok(EndStart {
            end: self.end,
            ap: self.ap,
            sta: self.sta,
            key,
            links,
            associated: self.associated,
            window: self.window,
            accept: self.accept,
            deny: self.deny,
            first_key: self.first_key,
            first_pn: self.first_pn,
            newest: self.newest,
        })
    }
}

impl Start {
    /// The same again.
    pub fn copy(&self, alloc: Global) -> Result<Start, Memory>
        ensures { IfOk result (λ s. s ≡ self.now) }
    {
        let ap = self.ap.copy(alloc)?;
        let sta = self.sta.copy(alloc)?;
        Ok(Start { ap, sta })
    }
}
