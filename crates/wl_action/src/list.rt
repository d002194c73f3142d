//! The element list behind the fields.

ghost use Rattle.std.specs.Prelude.{◌≡◌, ◌+◌, ◌≤◌, ◌<◌, ◌^◌, ℕ, List, Option, Some, Result, true, length, count_by, IfOk, IsTrue};
ghost use Rattle.wl_elem.specs.Answers.{Answers};
ghost use Rattle.wl_elem.specs.Element.{body_limit};
ghost use Rattle.wl_elem.specs.Identity.{has_identity, is_mapping, is_multi_link};
ghost use Rattle.wl_action.specs.Action.{is_reconf, is_reconf_link, right_numbers};
ghost use Rattle.wl_action.specs.Reading.{ListAs, FirstAs, ItemAs};

use crate::code::Code;
use crate::known::decode_known;
use std::alloc::Global;
use wl_elem::{Element, Elements, Fault, Known, Memory, Refusal, decode_elements};

/// Whether it is a TID-To-Link Mapping element.
fn is_mapping(e: &Element) -> bool
    ensures { result ≡ is_mapping e.now }
{
    e.known() == Some(Known::TidToLinkMapping)
}

/// Whether it is a Multi-Link element.
fn is_multi_link(e: &Element) -> bool
    ensures { result ≡ is_multi_link e.now }
{
    e.known() == Some(Known::MultiLink)
}

/// Whether it is a Multi-Link element whose control word has type 2.
fn is_reconf_link(e: &Element) -> bool
    ensures { result ≡ is_reconf_link e.now }
{
    let body = e.body();
    is_multi_link(e) && body.len() >= 2 && body[0] % 8 == 2
}

/// How many mapping elements there are.
fn mappings(list: &Elements) -> usize
    ensures { result ≡ count_by is_mapping list.now }
{
    list.as_slice().iter().filter(|e| is_mapping(e)).count()
}

/// How many Multi-Link elements there are.
fn multi_links(list: &Elements) -> usize
    ensures { result ≡ count_by is_multi_link list.now }
{
    list.as_slice().iter().filter(|e| is_multi_link(e)).count()
}

/// How many of them are of type 2.
fn reconf_links(list: &Elements) -> usize
    ensures { result ≡ count_by is_reconf_link list.now }
{
    list.as_slice().iter().filter(|e| is_reconf_link(e)).count()
}

/// Whether there are as many mapping or Multi-Link elements as there may be.
pub fn right_numbers(code: Code, list: &Elements) -> bool
    ensures { result ≡ right_numbers code list.now }
{
    match code {
        Code::MapAsk => {
            let count = mappings(list);
            count >= 1 && count <= 2
        }
        Code::MapReply => mappings(list) <= 2,
        Code::ReconfAsk => multi_links(list) == 1 && reconf_links(list) == 1,
        _ => true,
    }
}

/// The refusal of an element that is to be decoded behind the fields of this kind.
fn item_refusal(alloc: Global, code: Code, e: &Element) -> Result<Option<Refusal>, Memory>
    ensures { IfOk result (λ refusal. ItemAs code e.now refusal) }
{
    let Some(known) = e.known() else {
        return Ok(None);
    };
    if code.decodes() != Some(known) {
        return Ok(None);
    }
    match decode_known(alloc, known, e) {
        Ok(_) => Ok(None),
        Err(Fault::Refused(refusal)) => Ok(Some(refusal)),
        Err(Fault::Memory) => Err(Memory),
    }
}

/// The refusal of the first element that is to be decoded and isn't, with its index.
pub fn first_refusal(alloc: Global, code: Code, list: &Elements) -> Result<Option<Refusal>, Memory>
    requires { length list.now < 2 ^ 32 }
    ensures { IfOk result (λ refusal. FirstAs code 0 list.now refusal) }
{
    let elements = list.as_slice();
    'elements: for i in 0..elements.len() {
        if let Some(refusal) = item_refusal(alloc, code, &elements[i])? {
            return Ok(Some(refusal.in_element(i)));
        }
    }
    Ok(None)
}

/// The list of these octets, which stand at this place of the body behind the fields of this kind.
pub fn list_of(alloc: Global, code: Code, offset: usize, octets: &[u8]) -> Result<Elements, Fault>
    requires { offset + length octets.now ≤ body_limit }
    ensures { Answers result (ListAs code offset octets.now) }
{
    let list = match decode_elements(alloc, octets) {
        Ok(list) => list,
        Err(fault) => return Err(fault.moved(offset)),
    };
    if !right_numbers(code, &list) {
        return Err(Fault::at(offset, code.wrong_number()));
    }
    match first_refusal(alloc, code, &list)? {
        Some(refusal) => Err(Fault::Refused(refusal)),
        None => Ok(list),
    }
}
