//! The AP's end of multi-link setup.

ghost use Rattle.std.specs.Prelude.{◌≡◌, ◌↔◌, ◌<◌, IsSome, IsTrue, IfSome, None, option_map};
ghost use Rattle.wl_elem.specs.Links.{link_limit};
ghost use Rattle.wl_setup.specs.Messages.{IsAnswer, asked_status, asked_statuses};
ghost use Rattle.wl_setup.specs.Table.{is_named};

use crate::message::{Exchange, SetupAsk, SetupReply, is_same_ask};
use crate::status::{SUCCESS, status_beside, status_of};
use crate::table::{Addresses, Statuses, has, is_address, links_granted, refusals};
use std::marker::Model;
use wl_elem::{LinkSet, MacAddr};

/// An AP's multi-link setup with one station: it answers requests, and keeps the links that it sets up
/// (IEEE Std 802.11be, 35.3.5).
#[derive(Clone, Copy, Debug, PartialEq, Eq)]
pub struct ApSetup {
    mld: MacAddr,
    macs: Addresses,
    accept: LinkSet,
    links: LinkSet,
    joined: Option<Exchange>,
}

impl Model for ApSetup {
    ghost use Rattle.wl_setup.specs.Ap.{ApState, IsRemembered};

    ghost Value = { ApState };

    ghost view = { λ a. record { mld = a.mld; macs = a.macs; accept = a.accept; links = a.links; joined = a.joined } };

    ghost invariant = { λ a. IsRemembered a.joined };

    ghost inverse = { λ a. record { mld = a.mld; macs = a.macs; accept = a.accept; links = a.links; joined = a.joined } };
}

impl ApSetup {
    ghost use Rattle.wl_setup.specs.Ap.{status_on, is_carried, status_given, first_reply, later_reply, ask_answer, after_ask};

    /// The AP for the station of these addresses: its MLD address, and by link ID its address on each link
    /// that there is. `accept` are the links that the AP accepts, and `links` those set up at the start:
    /// all, or none. It remembers no request.
    pub fn new(
        mld: MacAddr,
        macs: [Option<MacAddr>; 15],
        accept: LinkSet,
        links: LinkSet,
    ) -> ApSetup
        ensures { result ≡ record { mld = mld; macs = macs; accept = accept; links = links; joined = None } }
    {
        ApSetup {
            mld,
            macs,
            accept,
            links,
            joined: None,
        }
    }

    /// Answers a request; `powered` are the links whose radio is on at the AP. None exactly where the
    /// request's MLD address isn't that of the station, in which case nothing changes. Otherwise the reply
    /// has a status for exactly the asked links.
    ///
    /// With no link set up, an asked link has status 38 where its address isn't the station's there, else
    /// 37 where `accept` or `powered` lacks it, and else 0. Where the carrying link has 0, the AP sets up
    /// all links that have, and remembers the request and the reply. Where it has another status, the
    /// links that would have 0 get 1, and nothing changes.
    ///
    /// With links set up nothing changes. The request with which the AP became associated gets the same
    /// reply again, and in the reply to any other each asked link has status 1.
    pub fn on_ask(&mut self, ask: &SetupAsk, powered: LinkSet) -> Option<SetupReply>
        requires { IsTrue (is_named ask.now.macs ask.now.on) }
        ensures answer { result ≡ ask_answer self.old ask.now powered }
        ensures heard { IsSome result ↔ (ask.now.mld ≡ self.old.mld) }
        ensures named { IfSome result (IsAnswer ask.now) }
        ensures carrying { IfSome result (λ reply. IsTrue (is_named reply.status reply.on)) }
        ensures after { self.new ≡ after_ask self.old ask.now powered }
    {
        if ask.mld != self.mld {
            return None;
        }
        if self.links.bits() != 0 {
            return Some(self.later_reply(ask));
        }
        let carried = self.is_carried(ask, powered);
        let reply = SetupReply {
            on: ask.on,
            status: self.statuses(ask, powered, carried),
        };
        if !carried {
            return Some(reply);
        }
        self.links = links_granted(&ask.macs, &reply.status);
        self.joined = Some(Exchange { ask: *ask, reply });
        Some(reply)
    }

    /// What the asked link of this ID deserves.
    fn status_on(&self, ask: &SetupAsk, powered: LinkSet, id: u8) -> u16
        requires { id < link_limit }
        ensures { result ≡ status_on self.now ask.now powered id }
    {
        let place = usize::from(id);
        status_of(
            is_address(&self.macs[place], &ask.macs[place]),
            has(self.accept, id),
            has(powered, id),
        )
    }

    /// Whether the carrying link succeeds.
    fn is_carried(&self, ask: &SetupAsk, powered: LinkSet) -> bool
        ensures answer { result ≡ is_carried self.now ask.now powered }
        ensures bound { ask.now.on < link_limit }
    {
        self.status_on(ask, powered, ask.on.get()) == SUCCESS
    }

    /// The status of the link of this ID, where it is asked.
    fn asked_status(&self, ask: &SetupAsk, powered: LinkSet, carried: bool, id: u8) -> Option<u16>
        requires { id < link_limit }
        ensures { result ≡ asked_status ask.now.macs (status_given carried self.now ask.now powered) id }
    {
        if ask.macs[usize::from(id)].is_none() {
            return None;
        }
        Some(status_beside(carried, self.status_on(ask, powered, id)))
    }

    /// The statuses of the asked links, by whether the carrying link succeeds.
    #[tactic(auto, using(crate::proofs::Tables::filled_more, crate::proofs::Tables::filled_all))]
    fn statuses(&self, ask: &SetupAsk, powered: LinkSet, carried: bool) -> Statuses
        ensures { result ≡ asked_statuses ask.now.macs (status_given carried self.now ask.now powered) }
    {
        let mut status = [None; 15];
        'links: for id in 0..15_u8 {
            status[usize::from(id)] = self.asked_status(ask, powered, carried, id);
        }
        status
    }

    /// The reply where links are set up.
    fn later_reply(&self, ask: &SetupAsk) -> SetupReply
        ensures answer { result ≡ later_reply self.now.joined ask.now }
        ensures named { IsAnswer ask.now result }
    {
        match &self.joined {
            Some(joined) if is_same_ask(&joined.ask, ask) => joined.reply,
            _ => SetupReply {
                on: ask.on,
                status: refusals(&ask.macs),
            },
        }
    }

    /// The links set up.
    pub fn links(&self) -> LinkSet
        ensures { result ≡ self.now.links }
    {
        self.links
    }
}
