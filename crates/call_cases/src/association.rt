//! Calls on association bodies.

ghost use Rattle.std.specs.Prelude.{◌<◌, ◌^◌, length};

use crate::lists::{push_list, rebuilt};
use crate::octets::{octets_of, octets_text};
use crate::words::{elements_of, fault_text, list_octets, number_of, text, yes};
use std::alloc::Global;
use wl_assoc::{
    AssocAsk, AssocReply, LinkAsk, LinkAsks, LinkState, LinkStates, ask_profiles, decode_ask,
    decode_reply, encode_ask, encode_reply, links_of,
};
use wl_elem::{Elements, LinkId};

/// The answer of a call. None where there is none of this name, or a word can't be read.
pub fn answer(alloc: Global, name: &str, words: &[&str]) -> Option<String> {
    match name {
        "assoc_ask" => ask(alloc, words),
        "assoc_reply" => reply(alloc, words),
        "link_asks" => link_asks(alloc, words),
        "link_states" => link_states(alloc, words),
        "assoc_fits" => fits(alloc, words),
        _ => None,
    }
}

/// The body that a request is written in, where it is well formed.
fn ask_text(alloc: Global, ask: &AssocAsk) -> Option<String>
    requires { length ask.now.elements < 2 ^ 32 }
{
    match ask.well_formed() {
        Ok(true) => octets_text(alloc, encode_ask(alloc, ask).ok()?.as_slice()),
        _ => text(alloc, "not_well_formed"),
    }
}

/// `assoc_ask BODY`: the body that the request is written in again, or the refusal.
fn ask(alloc: Global, words: &[&str]) -> Option<String> {
    let [body] = words else {
        return None;
    };
    let body = octets_of(alloc, body)?;
    match decode_ask(alloc, body.as_slice()) {
        Ok(ask) => ask_text(alloc, &ask),
        Err(fault) => fault_text(alloc, fault),
    }
}

/// The body that a response is written in, where it is well formed.
fn reply_text(alloc: Global, reply: &AssocReply) -> Option<String>
    requires { length reply.now.elements < 2 ^ 32 }
{
    match reply.well_formed() {
        Ok(true) => octets_text(alloc, encode_reply(alloc, reply).ok()?.as_slice()),
        _ => text(alloc, "not_well_formed"),
    }
}

/// `assoc_reply BODY`: the body that the response is written in again, or the refusal.
fn reply(alloc: Global, words: &[&str]) -> Option<String> {
    let [body] = words else {
        return None;
    };
    let body = octets_of(alloc, body)?;
    match decode_reply(alloc, body.as_slice()) {
        Ok(reply) => reply_text(alloc, &reply),
        Err(fault) => fault_text(alloc, fault),
    }
}

/// The octets of a list of at most 1,000 elements.
fn few_octets(alloc: Global, list: &Elements) -> Option<String> {
    if list.as_slice().len() > 1_000 {
        return None;
    }
    octets_text(alloc, list_octets(alloc, list)?.as_slice())
}

/// Adds a link that is asked for: its ID, and the octets of its elements.
fn push_link_ask(alloc: Global, out: &mut String, ask: &LinkAsk) -> Option<()> {
    let elements = few_octets(alloc, &ask.elements)?;
    write!(out, " {}:{elements}", ask.link.get()).ok()
}

/// Adds a link's answer: its ID, its capability and its status.
fn push_link_state(out: &mut String, state: &LinkState) -> Option<()> {
    let LinkState {
        link,
        capability,
        status,
    } = *state;
    write!(out, " {}:{capability}:{status}", link.get()).ok()
}

/// Adds what the calls of a request's list answer.
fn push_link_asks(alloc: Global, out: &mut String, asks: &LinkAsks) -> Option<()> {
    push_list!(out, asks, push_link_ask, alloc)
}

/// Adds what the calls of a response's list answer.
fn push_link_states(out: &mut String, states: &LinkStates) -> Option<()> {
    push_list!(out, states, push_link_state)
}

/// What the calls of a request's list answer.
fn link_asks_text(alloc: Global, asks: LinkAsks) -> Option<String> {
    let asks = rebuilt(alloc, asks)?;
    let mut out = String::new(alloc);
    push_link_asks(alloc, &mut out, &asks)?;
    Some(out)
}

/// What the calls of a response's list answer.
fn link_states_text(alloc: Global, states: LinkStates) -> Option<String> {
    let states = rebuilt(alloc, states)?;
    let mut out = String::new(alloc);
    push_link_states(&mut out, &states)?;
    Some(out)
}

/// `link_asks BODY`: what the calls of the list of what a request asks for on each link answer, or the
/// refusal.
fn link_asks(alloc: Global, words: &[&str]) -> Option<String> {
    let [body] = words else {
        return None;
    };
    let body = octets_of(alloc, body)?;
    let ask = decode_ask(alloc, body.as_slice()).ok()?;
    match ask_profiles(alloc, &ask) {
        Ok(asks) => link_asks_text(alloc, asks),
        Err(fault) => fault_text(alloc, fault),
    }
}

/// `link_states LINK BODY`: what the calls of the list of what a response over LINK says of each link
/// answer, or the refusal.
fn link_states(alloc: Global, words: &[&str]) -> Option<String> {
    let [on, body] = words else {
        return None;
    };
    let on = LinkId::new(number_of::<u8>(on)?)?;
    let body = octets_of(alloc, body)?;
    let reply = decode_reply(alloc, body.as_slice()).ok()?;
    match links_of(alloc, &reply, on) {
        Ok(states) => link_states_text(alloc, states),
        Err(fault) => fault_text(alloc, fault),
    }
}

/// `assoc_fits ELEMENT..`: whether a request and a response with these elements are well formed.
fn fits(alloc: Global, words: &[&str]) -> Option<String> {
    let ask = AssocAsk {
        capability: u16::MAX,
        listen: u16::MAX,
        elements: elements_of(alloc, words)?,
    };
    let as_ask = yes(ask.well_formed().ok()?);
    let reply = AssocReply {
        capability: u16::MAX,
        status: u16::MAX,
        aid: u16::MAX,
        elements: ask.elements,
    };
    let as_reply = yes(reply.well_formed().ok()?);
    format!(in alloc; "ask={as_ask} reply={as_reply}").ok()
}
