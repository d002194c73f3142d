//! Reading bodies.

ghost use Rattle.std.specs.Prelude.{◌≡◌, ◌==◌, ◌<◌, ◌≤◌, ◌^◌, ℕ, not, is_some, count_by, position, drop, length, IfOk, IfSome, IsNone};
ghost use Rattle.std.specs.List.{list_all};
ghost use Rattle.wl_elem.specs.Element.{ElementValue, body_limit};
ghost use Rattle.wl_elem.specs.Links.{link_limit};
ghost use Rattle.wl_assoc.specs.Profiles.{is_basic, IsOnlyBasic};
ghost use Rattle.wl_setup.specs.Table.{each_link};
ghost use Rattle.wl_joining.specs.Joining.{mac_in, mac_on, status_in, AskReadAs, ReplyReadAs};
ghost use Rattle.wl_joining.specs.Reading.{mld_in, MldAs, AskFromAs, ReplyFromAs};

use std::alloc::Global;
use wl_assoc::{
    AssocAsk, AssocReply, LinkAsk, LinkState, ask_profiles, decode_ask, decode_reply, is_basic,
    links_of,
};
use wl_elem::{Element, Elements, Fault, LinkId, MacAddr, Memory};
use wl_mle::{MultiLink, decode_ml};
use wl_setup::{SetupAsk, SetupReply};

/// The index of the first Basic Multi-Link element.
fn first_basic(elements: &[Element]) -> Option<usize>
    ensures { result ≡ position is_basic elements.now }
{
    elements.iter().position(|element| is_basic(element))
}

/// The one Basic Multi-Link element.
fn only_basic(list: &Elements) -> Option<&Element>
    requires { count_by is_basic list.now ≡ 1 }
    ensures some { IfSome result (λ e. (i : ℕ) × IsOnlyBasic list.now i e.now) }
    ensures none { IsNone result → (i : ℕ) (e : ElementValue) → IsOnlyBasic list.now i e → ⊥ }
{
    let elements = list.as_slice();
    let i = first_basic(elements)?;
    Some(&elements[i])
}

/// The MLD address in a Basic Multi-Link element.
fn mld_in(value: &MultiLink) -> Option<MacAddr>
    ensures { result ≡ mld_in value.now }
{
    match value {
        MultiLink::Basic(basic) => Some(basic.common.mld),
        _ => None,
    }
}

/// The MLD address of the one Basic Multi-Link element. None where it has no value.
fn mld_of(alloc: Global, list: &Elements) -> Result<Option<MacAddr>, Memory>
    requires { count_by is_basic list.now ≡ 1 }
    ensures { IfOk result (MldAs list.now) }
{
    wl_mle::read_once();
    let Some(element) = only_basic(list) else {
        return Ok(None);
    };
    match decode_ml(alloc, element) {
        Ok(value) => Ok(mld_in(&value)),
        Err(Fault::Refused(_)) => Ok(None),
        Err(Fault::Memory) => Err(Memory),
    }
}

/// The address that the profiles of a request give for the link of this ID.
fn mac_in(asks: &[LinkAsk], id: u8) -> Option<MacAddr>
    ensures { result ≡ mac_in asks.now id }
{
    'asks: for ask in asks {
        if ask.link.get() == id {
            return ask.mac;
        }
    }
    None
}

/// The sender's address on the link of this ID.
fn mac_on(on: LinkId, mac: MacAddr, asks: &[LinkAsk], id: u8) -> Option<MacAddr>
    ensures { result ≡ mac_on on mac asks.now id }
{
    if id == on.get() {
        return Some(mac);
    }
    mac_in(asks, id)
}

/// The sender's addresses, by link ID.
#[tactic(auto, using(crate::proofs::Tables::filled_more, crate::proofs::Tables::filled_all))]
fn macs_of(on: LinkId, mac: MacAddr, asks: &[LinkAsk]) -> [Option<MacAddr>; 15]
    ensures { result ≡ each_link (mac_on on mac asks.now) }
{
    let mut macs = [None; 15];
    'links: for id in 0..15_u8 {
        macs[usize::from(id)] = mac_on(on, mac, asks, id);
    }
    macs
}

/// The status that a response has for the link of this ID.
fn status_in(states: &[LinkState], id: u8) -> Option<u16>
    ensures { result ≡ status_in states.now id }
{
    'states: for state in states {
        if state.link.get() == id {
            return Some(state.status);
        }
    }
    None
}

/// The statuses of a response, by link ID.
#[tactic(auto, using(crate::proofs::Tables::filled_more, crate::proofs::Tables::filled_all))]
fn statuses_of(states: &[LinkState]) -> [Option<u16>; 15]
    ensures { result ≡ each_link (status_in states.now) }
{
    let mut status = [None; 15];
    'links: for id in 0..15_u8 {
        status[usize::from(id)] = status_in(states, id);
    }
    status
}

/// Whether each profile of a request has an address.
fn are_addressed(asks: &[LinkAsk]) -> bool
    ensures { result ≡ list_all (λ a. is_some a.mac) asks.now }
{
    asks.iter().all(|ask| ask.mac.is_some())
}

/// Whether no profile of a request is for the link that carries it.
fn are_asked_elsewhere(asks: &[LinkAsk], on: LinkId) -> bool
    ensures { result ≡ list_all (λ a. not (a.link == on)) asks.now }
{
    asks.iter().all(|ask| ask.link != on)
}

/// Whether none of these states is of the link that carries the response.
fn are_elsewhere(states: &[LinkState], on: LinkId) -> bool
    ensures { result ≡ list_all (λ s. not (s.link == on)) states.now }
{
    states.iter().all(|state| state.link != on)
}

/// The states behind the first.
fn others_of(states: &[LinkState]) -> &[LinkState]
    ensures { result.now ≡ drop 1 states.now }
{
    match states {
        [_, others @ ..] => others,
        [] => states,
    }
}

/// What an AP takes of the value of a request.
fn ask_from(
    alloc: Global,
    on: LinkId,
    mac: MacAddr,
    value: &AssocAsk,
) -> Result<Option<SetupAsk>, Memory>
    requires { length value.now.elements < 2 ^ 32 }
    ensures { IfOk result (AskFromAs on mac value.now) }
{
    let asks = match ask_profiles(alloc, value) {
        Ok(asks) => asks,
        Err(Fault::Refused(_)) => return Ok(None),
        Err(Fault::Memory) => return Err(Memory),
    };
    if !are_addressed(asks.as_slice()) {
        return Ok(None);
    }
    if !are_asked_elsewhere(asks.as_slice(), on) {
        return Ok(None);
    }
    let Some(mld) = mld_of(alloc, &value.elements)? else {
        return Ok(None);
    };
    let macs = macs_of(on, mac, asks.as_slice());
    Ok(Some(SetupAsk { on, mld, macs }))
}

/// What a station takes of the value of a response.
fn reply_from(alloc: Global, on: LinkId, value: &AssocReply) -> Result<Option<SetupReply>, Memory>
    requires { length value.now.elements < 2 ^ 32 }
    ensures { IfOk result (ReplyFromAs on value.now) }
{
    let states = match links_of(alloc, value, on) {
        Ok(states) => states,
        Err(Fault::Refused(_)) => return Ok(None),
        Err(Fault::Memory) => return Err(Memory),
    };
    if !are_elsewhere(others_of(states.as_slice()), on) {
        return Ok(None);
    }
    let status = statuses_of(states.as_slice());
    Ok(Some(SetupReply { on, status }))
}

/// Reads the body of an Association Request frame that came over this link from this address, as what
/// an AP takes of it (IEEE Std 802.11be, 35.3.5).
///
/// Some exactly where [`decode_ask`] takes the body, [`ask_profiles`] takes its profiles, each profile
/// has an address, and none is for the link that carries the frame. The request is then over this link,
/// of the MLD address in the Basic Multi-Link element, with this address on the carrying link, the
/// profiles' addresses on theirs, and none on the others. None of every other body. `Memory` where
/// there was none to read it; it says nothing of the body. The body has at most 16,777,216 octets.
pub fn read_ask(
    alloc: Global,
    on: LinkId,
    mac: MacAddr,
    body: &[u8],
) -> Result<Option<SetupAsk>, Memory>
    requires { length body.now ≤ body_limit }
    ensures { IfOk result (AskReadAs on mac body.now) }
{
    let value = match decode_ask(alloc, body) {
        Ok(value) => value,
        Err(Fault::Refused(_)) => return Ok(None),
        Err(Fault::Memory) => return Err(Memory),
    };
    ask_from(alloc, on, mac, &value)
}

/// Reads the body of an Association Response frame that came over this link, as what a station takes of
/// it (IEEE Std 802.11be, 35.3.5).
///
/// Some exactly where [`decode_reply`] takes the body, [`links_of`] takes its profiles, and no profile
/// is for the link that carries the frame. The reply is then over this link, with the body's status for
/// the carrying link, the profiles' statuses for theirs, and none for the others. None of every other
/// body. `Memory` where there was none to read it; it says nothing of the body. The body has at most
/// 16,777,216 octets.
pub fn read_reply(alloc: Global, on: LinkId, body: &[u8]) -> Result<Option<SetupReply>, Memory>
    requires { length body.now ≤ body_limit }
    ensures { IfOk result (ReplyReadAs on body.now) }
{
    let value = match decode_reply(alloc, body) {
        Ok(value) => value,
        Err(Fault::Refused(_)) => return Ok(None),
        Err(Fault::Memory) => return Err(Memory),
    };
    reply_from(alloc, on, &value)
}
