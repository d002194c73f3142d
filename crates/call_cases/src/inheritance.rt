//! Calls on inheritance in per-STA profiles.

ghost use Rattle.std.specs.Prelude.{◌<◌, ◌^◌, length, IfSome};

use crate::octets::{octets_of, octets_text};
use crate::words::{extended_of, fault_text, list_octets, text, yes};
use std::alloc::Global;
use wl_elem::{Elements, decode_elements};
use wl_inherit::{
    NonInheritance, ShrinkFault, decode_non, encode_non, expand, has_element, shrink,
};

/// The answer of a call. None where there is none of this name, or a word can't be read.
pub fn answer(alloc: Global, name: &str, words: &[&str]) -> Option<String> {
    match name {
        "non_inheritance" => non_inheritance(alloc, words),
        "non_inheritance_fits" => fits(alloc, words),
        "expand" => expanded(alloc, words),
        "shrink" => shrunk(alloc, words),
        _ => None,
    }
}

/// The body that a value is written in, where it is well formed.
fn written(alloc: Global, value: &NonInheritance) -> Option<String> {
    match value.well_formed() {
        Ok(true) => octets_text(alloc, encode_non(alloc, value).ok()?.body()),
        _ => text(alloc, "not_well_formed"),
    }
}

/// A value's lists and tail, and the body that it is written in.
fn value_text(alloc: Global, value: &NonInheritance) -> Option<String> {
    let ids = octets_text(alloc, value.ids.as_slice())?;
    let exts = octets_text(alloc, value.exts.as_slice())?;
    let tail = octets_text(alloc, value.tail.as_slice())?;
    let body = written(alloc, value)?;
    format!(in alloc; "ids={ids} exts={exts} tail={tail} {body}").ok()
}

/// `non_inheritance BODY`: the lists and the tail of the element's value, and the body that it is
/// written in again; or the refusal.
fn non_inheritance(alloc: Global, words: &[&str]) -> Option<String> {
    let [body] = words else {
        return None;
    };
    let element = extended_of(alloc, 56, body)?;
    match decode_non(alloc, &element) {
        Ok(value) => value_text(alloc, &value),
        Err(fault) => fault_text(alloc, fault),
    }
}

/// `non_inheritance_fits IDS EXTS TAIL`: whether the value with these octets is well formed.
fn fits(alloc: Global, words: &[&str]) -> Option<String> {
    let [ids, exts, tail] = words else {
        return None;
    };
    let value = NonInheritance {
        ids: octets_of(alloc, ids)?,
        exts: octets_of(alloc, exts)?,
        tail: octets_of(alloc, tail)?,
    };
    text(alloc, yes(value.well_formed().ok()?))
}

/// The list that the octets of a word are.
fn list_of(alloc: Global, word: &str) -> Option<Elements>
    ensures { IfSome result (λ list. length list < 2 ^ 32) }
{
    let octets = octets_of(alloc, word)?;
    decode_elements(alloc, octets.as_slice()).ok()
}

/// The octets of a list, if it has at most 10,000 elements.
fn octets_in(alloc: Global, list: &Elements) -> Option<String> {
    if list.as_slice().len() > 10_000 {
        return None;
    }
    octets_text(alloc, list_octets(alloc, list)?.as_slice())
}

/// What a profile is expanded to.
fn expanded_text(alloc: Global, outer: &Elements, profile: &Elements) -> Option<String>
    requires { length outer.now < 2 ^ 32 }
{
    if profile.as_slice().len() > 10_000 {
        return None;
    }
    match expand(alloc, outer, profile) {
        Ok(list) => octets_in(alloc, &list),
        Err(fault) => fault_text(alloc, fault),
    }
}

/// `expand OUTER PROFILE`: the octets of the profile's list expanded within the frame's, or the refusal.
fn expanded(alloc: Global, words: &[&str]) -> Option<String> {
    let [outer, profile] = words else {
        return None;
    };
    let outer = list_of(alloc, outer)?;
    expanded_text(alloc, &outer, &list_of(alloc, profile)?)
}

/// What a full list is shrunk to, and what this is expanded to.
fn shrunk_text(alloc: Global, outer: &Elements, full: &Elements) -> Option<String>
    requires outer { length outer.now < 2 ^ 32 }
    requires full { length full.now < 2 ^ 32 }
{
    if has_element(full, 255, Some(56)) {
        return None;
    }
    match shrink(alloc, outer, full) {
        Ok(profile) => {
            let list = expanded_text(alloc, outer, &profile)?;
            format!(in alloc; "{} {list}", octets_in(alloc, &profile)?).ok()
        }
        Err(ShrinkFault::TooMany(count)) => format!(in alloc; "too_many={count}").ok(),
        Err(ShrinkFault::Memory) => None,
    }
}

/// `shrink OUTER FULL`: the octets of the profile that the full list is shrunk to within the frame's,
/// and those of the list that this profile is expanded to.
fn shrunk(alloc: Global, words: &[&str]) -> Option<String> {
    let [outer, full] = words else {
        return None;
    };
    let outer = list_of(alloc, outer)?;
    let full = list_of(alloc, full)?;
    shrunk_text(alloc, &outer, &full)
}
