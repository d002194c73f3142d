//! Writing element lists.

ghost use Rattle.std.specs.Prelude.{◌≡◌, ◌<◌, ◌≤◌, ◌^◌, ◌+◌, length, OnOk, IfOk};
ghost use Rattle.std.specs.List.{AllByRecursion};
ghost use Rattle.wl_elem.specs.Element.{body_limit, information, HasShape};
ghost use Rattle.wl_elem.specs.ElementList.{Elems};
ghost use Rattle.wl_elem.specs.Encoding.{HasLength, HasElementLength, IsWithin, AddsElement};

use crate::bytes::Bytes;
use crate::element::Element;
use crate::elements::Elements;
use crate::fault::Memory;
use crate::kind::ListKind;
use crate::put::put_pieces;
use std::alloc::Global;

/// How many octets of information an element has: the body, and the extension where there is one.
fn information_len(e: &Element) -> u64
    ensures exact { result ≡ length (information e.now) }
    ensures bound { result ≤ body_limit + 1 }
{
    let body = e.body().len() as u64;
    match e.ext() {
        Some(_) => body + 1,
        None => body,
    }
}

/// How many octets an element is written in: its information, and a header for each piece.
fn element_len(e: &Element) -> u64
    ensures exact { HasElementLength e.now result }
    ensures bound { result < 2 ^ 25 }
{
    let len = information_len(e);
    if len <= 255 {
        return len + 2;
    }
    len + 2 * ((len + 254) / 255)
}

/// How many octets the list is written in. The list has fewer than 2^32 elements.
pub fn encoded_len(list: &Elements) -> u64
    requires { length list.now < 2 ^ 32 }
    ensures len { HasLength list.now result }
    ensures shapes { AllByRecursion HasShape list.now }
{
    let mut sum = 0u64;
    for e in list.as_slice() {
        sum += element_len(e);
    }
    sum
}

/// Adds an element: its first piece, and Fragments for what one piece doesn't hold.
fn write_element(out: &mut Bytes, e: &Element) -> Result<(), Memory>
    ensures { OnOk result (AddsElement e.now out.old out.new) }
{
    put_pieces(out, ListKind::Elements, e.id(), e.ext(), e.body())
}

/// The octets of the list, its one spelling. It is written in at most 16,777,216 octets, as
/// [`encoded_len`] tells.
pub fn encode_elements(alloc: Global, list: &Elements) -> Result<Bytes, Memory>
    requires { IsWithin list.now body_limit }
    ensures { IfOk result (λ octets. Elems list.now octets) }
{
    let mut out = Bytes::new(alloc);
    for e in list.as_slice() {
        write_element(&mut out, e)?;
    }
    Ok(out)
}
