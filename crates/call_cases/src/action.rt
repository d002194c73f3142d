//! Calls on bodies of Action frames.

ghost use Rattle.std.specs.Prelude.{◌≤◌, length};
ghost use Rattle.wl_action.specs.Action.{elements_of as elements_in};

use crate::octets::{octets_of, octets_text};
use crate::words::{elements_of, fault_text, number_of, optional_of, text, yes};
use std::alloc::Global;
use wl_action::{Action, LinkStatus, LinkStatuses, decode_action, encode_action};
use wl_elem::Bytes;

/// The answer of a call. None where there is none of this name, or a word can't be read.
pub fn answer(alloc: Global, name: &str, words: &[&str]) -> Option<String> {
    match name {
        "action" => action(alloc, words),
        "action_fits" => fits(alloc, words),
        _ => None,
    }
}

/// The body that a value is written in, where it is well formed.
fn written(alloc: Global, value: &Action) -> Option<String>
    requires { length (elements_in value.now) ≤ 16777216 }
{
    match value.well_formed(alloc) {
        Ok(true) => octets_text(alloc, encode_action(alloc, value).ok()?.as_slice()),
        _ => text(alloc, "not_well_formed"),
    }
}

/// `action BODY`: the body that the value is written in again, or the refusal.
fn action(alloc: Global, words: &[&str]) -> Option<String> {
    let [body] = words else {
        return None;
    };
    let body = octets_of(alloc, body)?;
    match decode_action(alloc, body.as_slice()) {
        Ok(value) => written(alloc, &value),
        Err(fault) => fault_text(alloc, fault),
    }
}

/// Whether a value is well formed.
fn verdict(alloc: Global, value: &Action) -> Option<String>
    requires { length (elements_in value.now) ≤ 16777216 }
{
    text(alloc, yes(value.well_formed(alloc).ok()?))
}

/// The verdict on an EML notice with these fields.
fn eml(alloc: Global, words: &[&str]) -> Option<String> {
    let [control, links, update] = words else {
        return None;
    };
    let control = number_of::<u8>(control)?;
    let links = optional_of::<u16>(links)?;
    let update = optional_of::<u8>(update)?;
    let value = Action::Eml {
        token: 0,
        control,
        links,
        update,
        rest: Bytes::new(alloc),
    };
    verdict(alloc, &value)
}

/// The verdict on an EPCS body of this action.
fn epcs(alloc: Global, words: &[&str]) -> Option<String> {
    let [action] = words else {
        return None;
    };
    let action = number_of::<u8>(action)?;
    let rest = Bytes::new(alloc);
    verdict(alloc, &Action::Epcs { action, rest })
}

/// The verdict on a reconfiguration response of so many links, all alike.
fn reconf_reply(alloc: Global, words: &[&str]) -> Option<String> {
    let [count] = words else {
        return None;
    };
    let count = usize::from(number_of::<u16>(count)?);
    let list = vec![in alloc; LinkStatus { link: 0, status: 0 }; count].ok()?;
    let value = Action::ReconfReply {
        token: 0,
        list: LinkStatuses::from_vec(list),
        rest: Bytes::new(alloc),
    };
    verdict(alloc, &value)
}

/// `action_fits KIND WORD..`: whether a value is well formed: `map_ask ELEMENT..`,
/// `reconf_ask ELEMENT..`, `eml CONTROL LINKS UPDATE`, `epcs ACTION` or `reconf_reply COUNT`.
fn fits(alloc: Global, words: &[&str]) -> Option<String> {
    let (kind, words) = words.split_first()?;
    let token = 1;
    match *kind {
        "map_ask" => {
            let elements = elements_of(alloc, words)?;
            verdict(alloc, &Action::MapAsk { token, elements })
        }
        "reconf_ask" => {
            let elements = elements_of(alloc, words)?;
            verdict(alloc, &Action::ReconfAsk { token, elements })
        }
        "eml" => eml(alloc, words),
        "epcs" => epcs(alloc, words),
        "reconf_reply" => reconf_reply(alloc, words),
        _ => None,
    }
}
