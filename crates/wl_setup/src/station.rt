//! The station's end of multi-link setup.

ghost use Rattle.std.specs.Prelude.{◌≡◌, ◌↔◌, ◌<◌, ℕ, IsSome, IsTrue, IfOk, OnErr, None, Some};
ghost use Rattle.wl_elem.specs.Links.{link_limit, has_link};
ghost use Rattle.wl_setup.specs.Table.{is_named};

use crate::message::{SetupAsk, SetupRefusal, SetupReply};
use crate::status::is_success;
use crate::table::{Addresses, addresses_on, links_granted, links_named};
use std::marker::Model;
use wl_elem::{LinkId, LinkSet, MacAddr};

/// A station's multi-link setup: it asks for links, and awaits the reply to its last request
/// (IEEE Std 802.11be, 35.3.5).
#[derive(Clone, Copy, Debug, PartialEq, Eq)]
pub struct StationSetup {
    mld: MacAddr,
    macs: Addresses,
    links: LinkSet,
    awaits: Option<SetupAsk>,
}

impl Model for StationSetup {
    ghost use Rattle.wl_setup.specs.Station.{StationState};

    ghost Value = { StationState };

    ghost view = { λ s. record { mld = s.mld; macs = s.macs; links = s.links; awaits = s.awaits } };

    ghost inverse = { λ s. record { mld = s.mld; macs = s.macs; links = s.links; awaits = s.awaits } };
}

impl StationSetup {
    ghost use Rattle.wl_setup.specs.Station.{is_choice, ask_for, asking, awaiting, awaits_over, reply_answer, after_reply};

    /// The station of these addresses: its MLD address, and by link ID its address on each link that
    /// there is. `links` are those set up at the start: all, or none. It awaits no reply.
    pub fn new(mld: MacAddr, macs: [Option<MacAddr>; 15], links: LinkSet) -> StationSetup
        ensures { result ≡ record { mld = mld; macs = macs; links = links; awaits = None } }
    {
        StationSetup {
            mld,
            macs,
            links,
            awaits: None,
        }
    }

    /// Asks for these links by a request over one of them; `powered` are the links whose radio is on at
    /// the station. The request has the station's address on exactly the links asked for, and the station
    /// awaits the reply to this one alone. The first of these that holds refuses it, and then nothing
    /// changes: `Joined` where any link is set up; `NotValid` where `links` lacks `on` or has a link that
    /// the station has no address for; `Unpowered` where `powered` lacks `on`.
    pub fn ask(
        &mut self,
        on: LinkId,
        links: LinkSet,
        powered: LinkSet,
    ) -> Result<SetupAsk, SetupRefusal>
        ensures answer { result ≡ asking self.old on links powered }
        ensures awaits { IfOk result (λ ask. self.new ≡ awaiting self.old ask) }
        ensures named { IfOk result (λ ask. (link : ℕ) → link < link_limit → is_named ask.macs link ≡ has_link links link) }
        ensures unchanged { OnErr result (self.new ≡ self.old) }
    {
        if self.links.bits() != 0 {
            return Err(SetupRefusal::Joined);
        }
        if !self.is_choice(on, links) {
            return Err(SetupRefusal::NotValid);
        }
        if !powered.has(on) {
            return Err(SetupRefusal::Unpowered);
        }
        let ask = self.ask_for(on, links);
        self.await_reply(&ask);
        Ok(ask)
    }

    /// Awaits the reply to this request alone.
    fn await_reply(&mut self, ask: &SetupAsk)
        ensures { self.new ≡ awaiting self.old ask.now }
    {
        self.awaits = Some(*ask);
    }

    /// The request for these links.
    fn ask_for(&self, on: LinkId, links: LinkSet) -> SetupAsk
        ensures { result ≡ ask_for self.now on links }
    {
        SetupAsk {
            on,
            mld: self.mld,
            macs: addresses_on(&self.macs, links),
        }
    }

    /// Whether the links to ask for have the carrying link among them, and the station has an address for
    /// each.
    fn is_choice(&self, on: LinkId, links: LinkSet) -> bool
        ensures { result ≡ is_choice self.now on links }
    {
        links.has(on) && links.within(links_named(&self.macs))
    }

    /// Takes the reply to the request that the station awaits: one over the link of its last request,
    /// where it has had none since. It gives the status of the carrying link, and None exactly where it
    /// awaits no reply over this link, in which case nothing changes. By a reply whose carrying link has
    /// status 0 the links set up become those that were asked and have status 0; by another one they stay.
    /// After either the station awaits no reply.
    pub fn on_reply(&mut self, reply: &SetupReply) -> Option<u16>
        requires { IsTrue (is_named reply.now.status reply.now.on) }
        ensures answer { result ≡ reply_answer self.old reply.now }
        ensures taken { IsSome result ↔ IsTrue (awaits_over self.old.awaits reply.now.on) }
        ensures after { self.new ≡ after_reply self.old reply.now }
    {
        let Some(ask) = self.awaits else {
            return None;
        };
        if ask.on != reply.on {
            return None;
        }
        let carrying = reply.status[usize::from(reply.on.get())];
        self.awaits = None;
        if is_success(carrying) {
            self.links = links_granted(&ask.macs, &reply.status);
        }
        carrying
    }

    /// The links set up.
    pub fn links(&self) -> LinkSet
        ensures { result ≡ self.now.links }
    {
        self.links
    }
}
