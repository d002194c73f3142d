//! What a profile has to carry.

ghost use Rattle.std.specs.Prelude.{◌≡◌, ◌≤◌, ◌<◌, ◌^◌, ◌+◌, ◌&&◌, ◌++◌, ℕ, [], Option, Some, IfOk, OnOk, IfErr, IsTrue, false, length, nat_eq, not, slice_index_or};
ghost use Rattle.std.specs.Cmp.Lexicographic.{pointwise};
ghost use Rattle.std.specs.List.{AllByRecursion};
ghost use Rattle.wl_elem.specs.Element.{ElementValue, has_shape};
ghost use Rattle.wl_elem.specs.Identity.{extended_id, non_inheritance};
ghost use Rattle.wl_inherit.specs.Identity.{has_any, never_inherited, of_identity, IsIdentity};
ghost use Rattle.wl_inherit.specs.Marks.{is_marked};
ghost use Rattle.wl_inherit.specs.Shrunk.{IsRegained, IsTooMany, dropped_count, dropped_exts, dropped_ids, exclusion, same_elements, shrunk};
ghost use Rattle.wl_inherit.specs.declared.shrunk.ShrinkFault.TheVariants.{Memory as NoMemory};

use crate::copies::put_others;
use crate::encode::encode_non;
use crate::identities::Identities;
use crate::non_inheritance::NonInheritance;
use std::alloc::Global;
use wl_elem::{Element, Elements, Memory, find};

/// The identities that one Non-Inheritance element lists without being cut into Fragments.
const MOST: usize = 252;

/// Why a list isn't shrunk.
#[derive(Clone, Copy, Debug, PartialEq, Eq)]
pub enum ShrinkFault {
    /// So many identities of the frame aren't in the list, more than the 252 that one
    /// Non-Inheritance element of Length 255 has room for.
    TooMany(u32),
    /// There was no memory for the list.
    Memory,
}

impl From<Memory> for ShrinkFault {
    ghost from_gives = { λ _ e. e ≡ NoMemory };

    fn from(_e: Memory) -> ShrinkFault {
        ShrinkFault::Memory
    }
}

/// Whether a list has an element of this identity. The list has fewer than 2^32 elements.
pub fn has_element(list: &Elements, id: u8, ext: Option<u8>) -> bool
    requires { length list.now < 2 ^ 32 }
    ensures { result ≡ has_any id ext list.now }
{
    find(list, id, ext, 0).is_some()
}

/// Whether the bodies at two places are the same.
fn same_at(list: &[Element], i: u32, other: &[Element], j: u32) -> bool
    requires list { i < length list.now }
    requires other { j < length other.now }
    ensures { (d : ElementValue) → result ≡ pointwise nat_eq (slice_index_or list.now i d).body (slice_index_or other.now j d).body }
{
    list[i as usize].body() == other[j as usize].body()
}

/// Whether two lists have the same elements of an identity, in order.
fn has_same(list: &Elements, other: &Elements, id: u8, ext: Option<u8>) -> bool
    requires list { length list.now < 2 ^ 32 }
    requires other { length other.now < 2 ^ 32 }
    ensures { result ≡ same_elements (of_identity id ext list.now) (of_identity id ext other.now) }
{
    let mut from = 0;
    let mut other_from = 0;
    'pairs: while let Some(i) = find(list, id, ext, from) {
        let Some(j) = find(other, id, ext, other_from) else {
            return false;
        };
        if !same_at(list.as_slice(), i, other.as_slice(), j) {
            return false;
        }
        from = i + 1;
        other_from = j + 1;
    }
    find(other, id, ext, other_from).is_none()
}

/// Marks of the identities of a list that can be inherited and are the same in the frame.
pub fn inherited_of(outer: &Elements, full: &Elements) -> Identities
    requires outer { length outer.now < 2 ^ 32 }
    requires full { length full.now < 2 ^ 32 }
    ensures { (id : ℕ) (ext : Option ℕ) → IsTrue (has_shape id ext) → is_marked result id ext
        ≡ (has_any id ext full.now && (not (never_inherited id ext) && same_elements (of_identity id ext outer.now) (of_identity id ext full.now))) }
{
    let mut seen = Identities::of_never_inherited();
    let mut inherited = Identities::none();
    'elements: for element in full.as_slice() {
        if seen.has(element.id(), element.ext()) {
            continue;
        }
        seen.mark(element);
        if has_same(outer, full, element.id(), element.ext()) {
            inherited.mark(element);
        }
    }
    inherited
}

/// What the frame has and the full list doesn't, without what is never inherited.
fn dropped_of(alloc: Global, outer: &Elements, full: &Elements) -> Result<NonInheritance, Memory>
    ensures dropped { IfOk result (λ n. n ≡ (record { ids = dropped_ids outer.now full.now; exts = dropped_exts outer.now full.now; tail = [] })) }
    ensures identities { AllByRecursion (λ e. IsIdentity e.id e.ext) outer.now }
{
    let mut there = Identities::none();
    there.mark_all(outer);
    let mut staying = Identities::of_never_inherited();
    staying.mark_all(full);
    there.without(alloc, &staying)
}

/// Adds the Non-Inheritance element of this value, where one of its lists isn't empty.
fn put_exclusion(alloc: Global, list: &mut Elements, value: &NonInheritance) -> Result<(), Memory>
    requires few { length value.now.ids + length value.now.exts ≤ MOST }
    requires tail { value.now.tail ≡ [] }
    ensures { OnOk result (list.new ≡ list.old ++ exclusion value.now.ids value.now.exts) }
{
    if value.ids.is_empty() && value.exts.is_empty() {
        return Ok(());
    }
    list.push(encode_non(alloc, value)?)
}

/// What a per-STA profile has to carry within a frame for its full list of elements, which has no
/// Non-Inheritance element: `has_element` says false of it.
///
/// Ok exactly where at most 252 identities of the frame's elements, without those that are never
/// inherited, aren't in the full list. The profile then has those elements of the full list, in
/// order, that the frame doesn't have in the same way: an element is left out where the frame's
/// elements of its identity are the full list's, and it isn't one that is never inherited. Behind
/// them, where there is one to list, one Non-Inheritance element lists the identities that aren't in
/// the full list, the lowest first (IEEE Std 802.11be, 35.3). Expanded within the frame, the profile
/// has the full list's elements of each identity, in order. Otherwise TooMany with the number of
/// those identities, or `Memory` where there was none for the list. Each list has fewer than 2^32
/// elements.
pub fn shrink(alloc: Global, outer: &Elements, full: &Elements) -> Result<Elements, ShrinkFault>
    requires outer { length outer.now < 2 ^ 32 }
    requires full { length full.now < 2 ^ 32 }
    requires none { has_any extended_id (Some non_inheritance) full.now ≡ false }
    ensures made { IfOk result (λ list. (list ≡ shrunk outer.now full.now) × (dropped_count outer.now full.now ≤ 252)) }
    ensures too_many { IfErr result (λ fault. IsTooMany outer.now full.now fault) }
    ensures regained { IfOk result (λ list. IsRegained outer.now full.now list) }
{
    let dropped = dropped_of(alloc, outer, full)?;
    let count = dropped.ids.as_slice().len() + dropped.exts.as_slice().len();
    if count > MOST {
        return Err(ShrinkFault::TooMany(count as u32));
    }
    let mut list = Elements::new(alloc);
    put_others(alloc, &mut list, full, &inherited_of(outer, full))?;
    put_exclusion(alloc, &mut list, &dropped)?;
    Ok(list)
}
