//! Calls on the Multi-Link element.

ghost use Rattle.std.specs.Prelude.{Some};
ghost use Rattle.wl_elem.specs.Element.{HasIdentity};

use crate::lists::{push_list, rebuilt};
use crate::octets::{octets_of, octets_text};
use crate::words::{extended_of, fault_text, list_octets, number_of, one_listed, text, yes};
use std::alloc::Global;
use wl_elem::{Bytes, Element, MacAddr, decode_elements};
use wl_mle::{
    Basic, BasicSub, BasicSubs, Common, MultiLink, ReconfSub, ReconfSubs, decode_ml, encode_ml,
};

/// The answer of a call. None where there is none of this name, or a word can't be read.
pub fn answer(alloc: Global, name: &str, words: &[&str]) -> Option<String> {
    match name {
        "multi_link" => multi_link(alloc, words),
        "multi_link_list" => listed_again(alloc, words),
        "basic_list" => basic_list(alloc, words),
        "other_multi_link" => other(alloc, words),
        "subelements" => subelements(alloc, words),
        _ => None,
    }
}

/// The element that a value is written in, where it is well formed.
fn element_of(alloc: Global, value: &MultiLink) -> Option<Element> {
    match value.well_formed() {
        Ok(true) => encode_ml(alloc, value).ok(),
        _ => None,
    }
}

/// The body that a value is written in, where it is well formed.
fn body_text(alloc: Global, value: &MultiLink) -> Option<String> {
    match element_of(alloc, value) {
        Some(element) => octets_text(alloc, element.body()),
        None => text(alloc, "not_well_formed"),
    }
}

/// The octets of a list that has a value's element alone, where it is well formed.
fn list_text(alloc: Global, value: &MultiLink) -> Option<String> {
    match element_of(alloc, value) {
        Some(element) => {
            let list = one_listed(alloc, element)?;
            octets_text(alloc, list_octets(alloc, &list)?.as_slice())
        }
        None => text(alloc, "not_well_formed"),
    }
}

/// `multi_link BODY`: the body that the element's value is written in again, or the refusal.
fn multi_link(alloc: Global, words: &[&str]) -> Option<String> {
    let [body] = words else {
        return None;
    };
    let element = extended_of(alloc, 107, body)?;
    match decode_ml(alloc, &element) {
        Ok(value) => body_text(alloc, &value),
        Err(fault) => fault_text(alloc, fault),
    }
}

/// The value of an element of this identity, listed.
fn value_again(alloc: Global, element: &Element) -> Option<String>
    requires { HasIdentity element.now 255 (Some 107) }
{
    match decode_ml(alloc, element) {
        Ok(value) => list_text(alloc, &value),
        Err(fault) => fault_text(alloc, fault),
    }
}

/// `multi_link_list OCTETS`: the octets of a list with the value of the first element of the list that
/// the octets are.
fn listed_again(alloc: Global, words: &[&str]) -> Option<String> {
    let [octets] = words else {
        return None;
    };
    let octets = octets_of(alloc, octets)?;
    let list = decode_elements(alloc, octets.as_slice()).ok()?;
    let element = list.get(0)?;
    if !element.has_identity(255, Some(107)) {
        return None;
    }
    value_again(alloc, element)
}

/// A subelement that isn't a profile: its ID, `:` and its octets.
fn other_sub(alloc: Global, word: &str) -> Option<BasicSub> {
    let (id, body) = word.split_once(':')?;
    let id = number_of::<u8>(id)?;
    let body = octets_of(alloc, body)?;
    Some(BasicSub::Other { id, body })
}

/// Common Info of the MLD with the address 02:00:00:00:00:01, without any field more.
fn plain_common(alloc: Global) -> Common {
    Common {
        mld: MacAddr::new([2, 0, 0, 0, 0, 1]),
        link: None,
        count: None,
        sync: None,
        eml: None,
        caps: None,
        apid: None,
        ext: None,
        tail: Bytes::new(alloc),
    }
}

/// `basic_list SPARE SUB..`: the octets of a list that has one Basic element, of these spare bits and
/// these subelements, if it is well formed.
fn basic_list(alloc: Global, words: &[&str]) -> Option<String> {
    let (spare, others) = words.split_first()?;
    let spare = number_of::<u16>(spare)?;
    let mut subs = BasicSubs::new(alloc);
    for word in others {
        subs.push(other_sub(alloc, word)?).ok()?;
    }
    let common = plain_common(alloc);
    let value = MultiLink::Basic(Basic {
        spare,
        common,
        subs,
    });
    list_text(alloc, &value)
}

/// `other_multi_link CONTROL BODY`: the body of an element of another type with this control word, if
/// it is well formed.
fn other(alloc: Global, words: &[&str]) -> Option<String> {
    let [control, body] = words else {
        return None;
    };
    let control = number_of::<u16>(control)?;
    let body = octets_of(alloc, body)?;
    body_text(alloc, &MultiLink::Other { control, body })
}

/// Adds a subelement of a Basic element: `profile:LINK`, or its ID.
fn push_basic(out: &mut String, sub: &BasicSub) -> Option<()> {
    match sub {
        BasicSub::Profile(p) => write!(out, " profile:{}", p.link.get()).ok(),
        BasicSub::Other { id, body: _ } => write!(out, " {id}").ok(),
    }
}

/// Adds a subelement of a Reconfiguration element: `change:LINK`, or its ID.
fn push_reconf(out: &mut String, sub: &ReconfSub) -> Option<()> {
    match sub {
        ReconfSub::Change(c) => write!(out, " change:{}", c.link.get()).ok(),
        ReconfSub::Other { id, body: _ } => write!(out, " {id}").ok(),
    }
}

/// Adds what the calls of a Basic element's list answer.
fn push_basics(out: &mut String, subs: &BasicSubs) -> Option<()> {
    push_list!(out, subs, push_basic)
}

/// Adds what the calls of a Reconfiguration element's list answer.
fn push_reconfs(out: &mut String, subs: &ReconfSubs) -> Option<()> {
    push_list!(out, subs, push_reconf)
}

/// What the calls of a Basic element's list answer.
fn basic_calls(alloc: Global, subs: BasicSubs) -> Option<String> {
    let subs = rebuilt(alloc, subs)?;
    let mut out = String::new(alloc);
    push_basics(&mut out, &subs)?;
    Some(out)
}

/// What the calls of a Reconfiguration element's list answer.
fn reconf_calls(alloc: Global, subs: ReconfSubs) -> Option<String> {
    let subs = rebuilt(alloc, subs)?;
    let mut out = String::new(alloc);
    push_reconfs(&mut out, &subs)?;
    Some(out)
}

/// `subelements BODY`: what the calls of the list of the element's subelements answer, once it is built
/// again.
fn subelements(alloc: Global, words: &[&str]) -> Option<String> {
    let [body] = words else {
        return None;
    };
    let element = extended_of(alloc, 107, body)?;
    match decode_ml(alloc, &element) {
        Ok(MultiLink::Basic(basic)) => basic_calls(alloc, basic.subs),
        Ok(MultiLink::Reconfiguration(reconf)) => reconf_calls(alloc, reconf.subs),
        _ => None,
    }
}
