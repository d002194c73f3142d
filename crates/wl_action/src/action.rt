//! The value of a body.

ghost use Rattle.std.specs.Prelude.{◌≡◌, ◌<◌, ◌^◌, ◌↔◌, [], false, length, IsTrue, IfOk, IfNone, MatchOption};
ghost use Rattle.wl_action.specs.Action.{elements_of};

use crate::statuses::LinkStatuses;
use crate::well_formed::is_writable;
use std::alloc::Global;
use wl_elem::{Bytes, Elements, Memory};

/// The body of an Action frame of category 37, Protected EHT (IEEE Std 802.11be, 9.6.35), or 3, Block
/// Ack (IEEE Std 802.11, 9.6.4).
///
/// `elements` are raw: of the TID-To-Link Mapping elements and the Multi-Link element that the kind
/// asks for it is only said that they have values.
#[derive(Debug, Drop)]
pub enum Action {
    /// TID-To-Link Mapping Request, action 0: one or two mapping elements are among the elements.
    MapAsk {
        token: u8,
        elements: Elements,
    },
    /// TID-To-Link Mapping Response, action 1: at most two mapping elements are among the elements.
    MapReply {
        token: u8,
        status: u16,
        elements: Elements,
    },
    /// TID-To-Link Mapping Teardown, action 2.
    MapTeardown {
        rest: Bytes,
    },
    /// The EPCS frames, actions 3 to 5.
    Epcs {
        action: u8,
        rest: Bytes,
    },
    /// EML Operating Mode Notification, action 6.
    Eml {
        token: u8,
        /// EMLSR mode B0, EMLMR mode B1, which is clear, and parameter update B2. The other bits are
        /// kept.
        control: u8,
        /// The link bitmap, there exactly where B0 is set.
        links: Option<u16>,
        /// The parameter update, there exactly where B2 is set.
        update: Option<u8>,
        rest: Bytes,
    },
    /// Link Reconfiguration Request, action 11: one Multi-Link element is among the elements, a
    /// Reconfiguration one.
    ReconfAsk {
        token: u8,
        elements: Elements,
    },
    /// Link Reconfiguration Response, action 12: at most 255 links.
    ReconfReply {
        token: u8,
        list: LinkStatuses,
        rest: Bytes,
    },
    /// ADDBA Request, category 3, action 0.
    AddBaAsk {
        token: u8,
        params: u16,
        timeout: u16,
        start: u16,
        elements: Elements,
    },
    /// ADDBA Response, category 3, action 1.
    AddBaReply {
        token: u8,
        status: u16,
        params: u16,
        timeout: u16,
        elements: Elements,
    },
    /// DELBA, category 3, action 2.
    DelBa {
        params: u16,
        reason: u16,
        rest: Bytes,
    },
}

impl Action {
    ghost use Rattle.wl_action.specs.Action.{IsWritable, has_elements};
    ghost use Rattle.wl_action.specs.Writing.{kind_of};

    /// Whether some body has this value: exactly where `encode_action` takes it. The action of `Epcs`
    /// is 3 to 5, `links` and `update` are there as the control says and EMLMR is clear, there are at
    /// most 255 links, the elements that `decode_action` asks for are there and each has a value, and
    /// the body has at most 16,777,216 octets. `Memory` where there was none to decode the elements;
    /// there are fewer than 2^32 of them.
    pub fn well_formed(&self, alloc: Global) -> Result<bool, Memory>
        requires { length (elements_of self.now) < 2 ^ 32 }
        ensures exact { IfOk result (λ answer. IsTrue answer ↔ IsWritable self.now) }
    {
        is_writable(alloc, self)
    }

    /// The elements behind the fields, where the kind has them.
    pub fn elements(&self) -> Option<&Elements>
        ensures elements { MatchOption result (elements_of self.now ≡ []) (λ list. list.now ≡ elements_of self.now) }
        ensures none { IfNone result (has_elements (kind_of self.now) ≡ false) }
    {
        match self {
            Action::MapAsk { elements, .. }
            | Action::MapReply { elements, .. }
            | Action::ReconfAsk { elements, .. }
            | Action::AddBaAsk { elements, .. }
            | Action::AddBaReply { elements, .. } => Some(elements),
            Action::MapTeardown { .. }
            | Action::Epcs { .. }
            | Action::Eml { .. }
            | Action::ReconfReply { .. }
            | Action::DelBa { .. } => None,
        }
    }
}
