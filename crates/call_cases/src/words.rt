//! The words of a line, and the words of an answer.

ghost use Rattle.std.specs.Prelude.{◌<◌, ◌≤◌, ◌^◌, Some, length, IfSome};
ghost use Rattle.wl_elem.specs.Element.{HasIdentity};

use crate::octets::octets_of;
use std::alloc::Global;
use std::str::FromStr;
use wl_elem::{
    Bytes, Element, Elements, Fault, Lane, LinkId, MacAddr, Refusal, Tid, encode_elements,
    encoded_len,
};

/// A flag as an answer shows it.
pub fn yes(flag: bool) -> &'static str {
    if flag { "yes" } else { "no" }
}

/// A text as an answer.
pub fn text(alloc: Global, text: &str) -> Option<String> {
    String::from_str(alloc, text).ok()
}

/// A number as an answer, or `none`.
pub fn number_or_none(alloc: Global, number: Option<u64>) -> Option<String> {
    match number {
        Some(n) => format!(in alloc; "{n}").ok(),
        None => text(alloc, "none"),
    }
}

/// The number of a word.
pub fn number_of<N: FromStr>(word: &str) -> Option<N>
where
    N::Err: Drop,
{
    word.parse::<N>().ok()
}

/// The number of a word, or none where it is `-`.
pub fn optional_of<N: FromStr>(word: &str) -> Option<Option<N>>
where
    N: Drop,
    N::Err: Drop,
{
    if word == "-" {
        return Some(None);
    }
    Some(Some(number_of::<N>(word)?))
}

/// The numbers of a word, between `:`; of no characters none.
pub fn u16s_of(alloc: Global, word: &str) -> Option<Vec<u16>> {
    let mut numbers = Vec::new(alloc);
    if !word.is_empty() {
        for number in word.split(':') {
            numbers.push(number_of::<u16>(number)?).ok()?;
        }
    }
    Some(numbers)
}

/// Adds an answer behind a space.
pub fn push_answer(out: &mut String, answer: Option<String>) -> Option<()> {
    let answer = answer?;
    write!(out, " {answer}").ok()
}

/// The name of a word and what stands behind its first `:`.
pub fn name_of(word: &str) -> (&str, &str) {
    match word.split_once(':') {
        Some((name, rest)) => (name, rest),
        None => (word, ""),
    }
}

/// The identity of an element: `ID`, or `ID.EXT`.
pub fn identity_of(word: &str) -> Option<(u8, Option<u8>)> {
    match word.split_once('.') {
        Some((id, ext)) => Some((number_of::<u8>(id)?, Some(number_of::<u8>(ext)?))),
        None => Some((number_of::<u8>(word)?, None)),
    }
}

/// The link of an ID.
pub fn link_of(word: &str) -> Option<LinkId> {
    LinkId::new(number_of::<u8>(word)?)
}

/// A lane: a TID, or `m` for management.
pub fn lane_of(word: &str) -> Option<Lane> {
    if word == "m" {
        return Some(Lane::Management);
    }
    Some(Lane::Tid(Tid::new(number_of::<u8>(word)?)?))
}

/// A lane as an answer shows it.
pub fn lane_text(alloc: Global, lane: Lane) -> Option<String> {
    match lane {
        Lane::Tid(tid) => format!(in alloc; "{}", tid.get()).ok(),
        Lane::Management => text(alloc, "m"),
    }
}

/// An address of six octets.
pub fn address_of(alloc: Global, word: &str) -> Option<MacAddr> {
    let octets = octets_of(alloc, word)?;
    match octets.as_slice() {
        [a, b, c, d, e, f] => Some(MacAddr::new([*a, *b, *c, *d, *e, *f])),
        _ => None,
    }
}

/// An element: its identity, `:` and its body.
fn element_of(alloc: Global, word: &str) -> Option<Element> {
    let (identity, body) = word.split_once(':')?;
    let (id, ext) = identity_of(identity)?;
    let body = octets_of(alloc, body)?;
    Element::new(id, ext, body)
}

/// An element of ID 255 and this extension: its body.
pub fn extended_of(alloc: Global, ext: u8, word: &str) -> Option<Element>
    ensures { IfSome result (λ e. HasIdentity e 255 (Some ext)) }
{
    let body = octets_of(alloc, word)?;
    Element::new(255, Some(ext), body)
}

/// The list of one element.
pub fn one_listed(alloc: Global, element: Element) -> Option<Elements>
    ensures { IfSome result (λ list. length list ≤ 1000) }
{
    let mut list = Elements::new(alloc);
    list.push(element).ok()?;
    if list.as_slice().len() > 1_000 {
        return None;
    }
    Some(list)
}

/// The list of these elements, which are few.
pub fn elements_of(alloc: Global, words: &[&str]) -> Option<Elements>
    ensures { IfSome result (λ list. length list ≤ 1000) }
{
    let mut list = Elements::new(alloc);
    for word in words {
        list.push(element_of(alloc, word)?).ok()?;
    }
    if list.as_slice().len() > 1_000 {
        return None;
    }
    Some(list)
}

/// The octets of a list of elements.
pub fn list_octets(alloc: Global, list: &Elements) -> Option<Bytes>
    requires { length list.now < 2 ^ 32 }
{
    if encoded_len(list) > 16_777_216 {
        return None;
    }
    encode_elements(alloc, list).ok()
}

/// Adds an index of a refusal behind its name, where it is there.
fn push_index(out: &mut String, name: &str, index: Option<u32>) -> Option<()> {
    match index {
        Some(i) => write!(out, " {name}={i}").ok(),
        None => Some(()),
    }
}

/// A refusal as an answer: the indices that are there, the place and the name.
pub fn refusal_text(alloc: Global, refusal: Refusal) -> Option<String> {
    let mut out = text(alloc, "refused")?;
    push_index(&mut out, "element", refusal.element)?;
    push_index(&mut out, "sub", refusal.sub)?;
    push_index(&mut out, "inner", refusal.inner)?;
    write!(out, " place={} {}", refusal.place, refusal.why.name()).ok()?;
    Some(out)
}

/// A fault as an answer.
pub fn fault_text(alloc: Global, fault: Fault) -> Option<String> {
    match fault {
        Fault::Refused(refusal) => refusal_text(alloc, refusal),
        Fault::Memory => None,
    }
}
