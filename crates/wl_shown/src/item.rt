//! The items of an element list.

ghost use Rattle.std.specs.Prelude.{◌≡◌, ◌<◌, ◌≤◌, ◌^◌, ◌++◌, length, Ok, OnOk, IfErr, IfSome};
ghost use Rattle.std.specs.String.{string_bytes};
ghost use Rattle.wl_elem.specs.Element.{body_limit};
ghost use Rattle.wl_elem.specs.Identity.{HasExtension, extension_of};
ghost use Rattle.wl_shown.specs.Shown.{known_text, KnownAs, shown_as, ItemAs, ItemsAs, ListAs, IsFaultOf, AddsText};

use crate::mapping::push_ttlm;
use crate::multi_link::push_ml;
use crate::show::push_element;
use std::alloc::Global;
use wl_action::{KnownValue, decode_known};
use wl_assoc::is_basic;
use wl_elem::{Element, Elements, Fault, Known, Memory, decode_elements};

/// Which elements of a list are shown as their values; all others are shown as octets.
#[derive(Clone, Copy, Debug, PartialEq, Eq)]
pub enum ShownElements {
    /// All that are decoded where they stand in a list.
    All,
    /// These of them.
    Only(Known),
    /// Basic Multi-Link elements.
    Basic,
    /// No elements.
    Nothing,
}

/// As which element it is shown. None where it is shown as octets.
#[tactic(auto, using(crate::proofs::Items::basic_identity))]
fn shown_as(shown: ShownElements, e: &Element) -> Option<Known>
    ensures exact { result ≡ shown_as shown e.now }
    ensures identity { IfSome result (λ known. HasExtension e.now (extension_of known)) }
{
    match shown {
        ShownElements::All => e.known(),
        ShownElements::Only(known) if e.known() == Some(known) => Some(known),
        ShownElements::Basic if is_basic(e) => Some(Known::MultiLink),
        _ => None,
    }
}

/// Adds an element of this identity as its value.
fn push_known(alloc: Global, out: &mut String, known: Known, e: &Element) -> Result<(), Fault>
    requires { HasExtension e.now (extension_of known) }
    ensures shown { OnOk result (AddsText (KnownAs known e.now.body) (string_bytes out.old) (string_bytes out.new)) }
    ensures refused { IfErr result (IsFaultOf (KnownAs known e.now.body)) }
{
    let value = match decode_known(alloc, known, e) {
        Ok(value) => value,
        Err(fault) => return Err(fault),
    };
    match push_value(alloc, out, &value) {
        Ok(()) => Ok(()),
        Err(Memory) => Err(Fault::Memory),
    }
}

/// Adds the value of an element.
fn push_value(alloc: Global, out: &mut String, value: &KnownValue) -> Result<(), Memory>
    ensures { OnOk result (string_bytes out.new ≡ string_bytes out.old ++ known_text value.now) }
{
    match value {
        KnownValue::Mapping(t) => push_ttlm(alloc, out, t),
        KnownValue::MultiLink(m) => push_ml(alloc, out, m),
    }
}

/// Adds an element as its value, where such elements are decoded, or as octets.
fn push_item(
    alloc: Global,
    out: &mut String,
    shown: ShownElements,
    e: &Element,
) -> Result<(), Fault>
    ensures shown { OnOk result (AddsText (ItemAs shown e.now) (string_bytes out.old) (string_bytes out.new)) }
    ensures refused { IfErr result (IsFaultOf (ItemAs shown e.now)) }
{
    match shown_as(shown, e) {
        Some(known) => push_known(alloc, out, known, e),
        None => Ok(push_element(alloc, out, e)?),
    }
}

/// Adds the elements of a list in order, each behind a space; or answers the fault of the first that
/// has one, and then `items` has no meaning.
pub fn push_items(
    alloc: Global,
    items: &mut String,
    shown: ShownElements,
    list: &Elements,
) -> Result<(), Fault>
    requires { length list.now < 2 ^ 32 }
    ensures shown { OnOk result (AddsText (ItemsAs shown 0 list.now) (string_bytes items.old) (string_bytes items.new)) }
    ensures refused { IfErr result (IsFaultOf (ItemsAs shown 0 list.now)) }
{
    for (i, e) in list.as_slice().iter().enumerate() {
        items.push_str(" ")?;
        match push_item(alloc, items, shown, e) {
            Ok(()) => {}
            Err(fault) => return Err(fault.in_element(i)),
        }
    }
    Ok(())
}

/// Makes `items` those of the list that the octets are; or answers the fault of the list, or of the
/// first element that has one, and then `items` has no meaning.
pub fn put_list(alloc: Global, items: &mut String, octets: &[u8]) -> Result<(), Fault>
    requires { length octets.now ≤ body_limit }
    ensures shown { OnOk result (ListAs octets.now (Ok (string_bytes items.new))) }
    ensures refused { IfErr result (IsFaultOf (ListAs octets.now)) }
{
    let list = match decode_elements(alloc, octets) {
        Ok(list) => list,
        Err(fault) => return Err(fault),
    };
    items.clear();
    push_items(alloc, items, ShownElements::All, &list)
}
