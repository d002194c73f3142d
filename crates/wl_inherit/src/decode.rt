//! Reading the element's body.

ghost use Rattle.std.specs.Prelude.{◌≡◌, ◌↔◌, ◌≤◌, ◌∷◌, ◌++◌, IsTrue, IsNone, IfOk, IfErr, IfSome, Option, Some, Result, length};
ghost use Rattle.wl_elem.specs.declared.fault.Refusal.{Refusal};
ghost use Rattle.wl_elem.specs.Answers.{Answers, AnswersOnly};
ghost use Rattle.wl_elem.specs.Identity.{HasExtension, non_inheritance};
ghost use Rattle.wl_inherit.specs.declared.non_inheritance.NonInheritance.{NonInheritance};
ghost use Rattle.wl_inherit.specs.NonInheritance.{ReadAs, NonOf, NonRefused, listed, is_cut};

use crate::non_inheritance::NonInheritance;
use std::alloc::Global;
use wl_elem::{Bytes, Element, Fault, Memory, Refusal, Why};

/// The two lists of a body, and what stands behind them.
#[derive(Clone, Copy)]
pub struct Lists<'a> {
    pub ids: &'a [u8],
    pub exts: &'a [u8],
    pub tail: &'a [u8],
}

/// The list at the front and what follows it. None where the list or its length isn't whole.
fn first_list(octets: &[u8]) -> Option<(&[u8], &[u8])>
    ensures some { IfSome result (λ x. (length x.0.now ≤ 255) × (octets.now ≡ listed x.0.now ++ x.1.now)) }
    ensures none { IsTrue (is_cut octets.now) ↔ IsNone result }
{
    let [len, rest @ ..] = octets else {
        return None;
    };
    let len = *len as usize;
    if rest.len() < len {
        return None;
    }
    Some(rest.split_at(len))
}

/// The lists of a body.
pub fn lists_of(body: &[u8]) -> Result<Lists<'_>, Refusal>
    ensures read { IfOk result (λ l. NonOf (record { ids = l.ids.now; exts = l.exts.now; tail = l.tail.now }) body.now) }
    ensures refused { IfErr result (λ refusal. NonRefused body.now refusal) }
{
    let Some((ids, rest)) = first_list(body) else {
        return Err(Refusal::at(0, Why::Truncated));
    };
    let Some((exts, tail)) = first_list(rest) else {
        return Err(Refusal::at(1 + ids.len(), Why::Truncated));
    };
    Ok(Lists { ids, exts, tail })
}

/// The value with these lists.
fn value_of(alloc: Global, lists: Lists<'_>) -> Result<NonInheritance, Memory>
    ensures { IfOk result (λ n. n ≡ (record { ids = lists.entry.ids.now; exts = lists.entry.exts.now; tail = lists.entry.tail.now })) }
{
    let ids = Bytes::from_slice(alloc, lists.ids)?;
    let exts = Bytes::from_slice(alloc, lists.exts)?;
    let tail = Bytes::from_slice(alloc, lists.tail)?;
    Ok(NonInheritance { ids, exts, tail })
}

/// Reads a Non-Inheritance element, whose identity is 255/56.
///
/// Ok exactly where the body is that of a value: two whole lists, each behind its length (IEEE Std
/// 802.11, 9.4.2.240); each value has one body. Otherwise Truncated at the length octet of the first
/// list that isn't whole, or at the end where that octet is missing. The octets behind the lists are
/// the tail. `Memory` where there was none for the value; it says nothing of the body.
pub fn decode_non(alloc: Global, element: &Element) -> Result<NonInheritance, Fault>
    requires { HasExtension element.now non_inheritance }
    ensures read { Answers result (ReadAs element.now.body) }
    ensures only { (reading : Result NonInheritance Refusal) → ReadAs element.now.body reading → AnswersOnly result reading }
{
    match lists_of(element.body()) {
        Ok(lists) => Ok(value_of(alloc, lists)?),
        Err(refusal) => Err(Fault::Refused(refusal)),
    }
}
