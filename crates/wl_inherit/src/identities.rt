//! Tables of the identities of elements.

ghost use Rattle.std.specs.Prelude.{◌≡◌, ◌==◌, ◌&&◌, ◌||◌, ℕ, [], Option, Some, None, false, IfOk, IsTrue, filter, length, not, slice_index_or};
ghost use Rattle.std.specs.List.{AllByRecursion, list_any};
ghost use Rattle.wl_elem.specs.Element.{has_shape};
ghost use Rattle.wl_elem.specs.Identity.{extended_id};
ghost use Rattle.wl_inherit.specs.Identity.{is_non, never_inherited, IsIdentity};
ghost use Rattle.wl_inherit.specs.Shrunk.{octet_values};

use crate::decode::Lists;
use crate::non_inheritance::NonInheritance;
use std::alloc::Global;
use wl_elem::{
    Bytes, EXTENDED, Element, Elements, MULTI_LINK, Memory, NON_INHERITANCE, TID_TO_LINK_MAPPING,
};

/// A mark for each identity that an element can have: for each ID, and for each Element ID Extension
/// of ID 255.
#[derive(Drop)]
pub struct Identities {
    ids: [bool; 256],
    exts: [bool; 256],
}

/// Marks these octets in a table.
fn mark_octets(table: &mut [bool], octets: &[u8])
    requires { length table.old ≡ 256 }
    ensures { (n : ℕ) → slice_index_or table.new n false ≡ (slice_index_or table.old n false || list_any (λ x. x == n) octets.now) }
{
    'octets: for octet in octets {
        table[*octet as usize] = true;
    }
}

/// The numbers that are marked in a table and not in another, the lowest first.
fn numbers_of(alloc: Global, table: &[bool; 256], other: &[bool; 256]) -> Result<Bytes, Memory>
    ensures { IfOk result (λ numbers. numbers ≡ filter (λ n. slice_index_or table.now n false && not (slice_index_or other.now n false)) octet_values) }
{
    let mut numbers = Bytes::new(alloc);
    'numbers: for n in 0_u16..256 {
        if table[n as usize] && !other[n as usize] {
            numbers.push(n as u8)?;
        }
    }
    Ok(numbers)
}

impl Identities {
    ghost use Rattle.wl_inherit.specs.Marks.{is_marked, Adds, AddsAll, AddsLists};

    /// No marks.
    pub fn none() -> Identities
        ensures { (id : ℕ) (ext : Option ℕ) → is_marked result id ext ≡ false }
    {
        Identities {
            ids: [false; 256],
            exts: [false; 256],
        }
    }

    /// A mark at the Non-Inheritance element.
    pub fn of_non() -> Identities
        ensures { (id : ℕ) (ext : Option ℕ) → IsTrue (has_shape id ext) → is_marked result id ext ≡ is_non id ext }
    {
        let mut marks = Identities::none();
        marks.mark_ext(NON_INHERITANCE);
        marks
    }

    /// Marks at what is never inherited: Non-Inheritance, Multi-Link and TID-To-Link Mapping.
    pub fn of_never_inherited() -> Identities
        ensures { (id : ℕ) (ext : Option ℕ) → IsTrue (has_shape id ext) → is_marked result id ext ≡ never_inherited id ext }
    {
        let mut marks = Identities::of_non();
        marks.mark_ext(MULTI_LINK);
        marks.mark_ext(TID_TO_LINK_MAPPING);
        marks
    }

    /// Whether an identity is marked.
    pub fn has(&self, id: u8, ext: Option<u8>) -> bool
        ensures { result ≡ is_marked self.now id ext }
    {
        match ext {
            Some(ext) => id == EXTENDED && self.exts[ext as usize],
            None => self.ids[id as usize],
        }
    }

    /// Marks an ID.
    fn mark_id(&mut self, id: u8)
        ensures { Adds id None self.old self.new }
    {
        self.ids[id as usize] = true;
    }

    /// Marks an extension.
    fn mark_ext(&mut self, ext: u8)
        ensures { Adds extended_id (Some ext) self.old self.new }
    {
        self.exts[ext as usize] = true;
    }

    /// Marks the identity of an element.
    pub fn mark(&mut self, element: &Element)
        ensures marks { Adds element.now.id element.now.ext self.old self.new }
        ensures identity { IsIdentity element.now.id element.now.ext }
    {
        match element.ext() {
            Some(ext) => self.mark_ext(ext),
            None => self.mark_id(element.id()),
        }
    }

    /// Marks the identities of all elements of a list.
    pub fn mark_all(&mut self, list: &Elements)
        ensures marks { AddsAll list.now self.old self.new }
        ensures identities { AllByRecursion (λ e. IsIdentity e.id e.ext) list.now }
    {
        'elements: for element in list.as_slice() {
            self.mark(element);
        }
    }

    /// Marks what a Non-Inheritance element lists.
    pub fn mark_lists(&mut self, lists: Lists<'_>)
        ensures { AddsLists (record { ids = lists.entry.ids.now; exts = lists.entry.exts.now; tail = lists.entry.tail.now }) self.old self.new }
    {
        mark_octets(&mut self.ids, lists.ids);
        mark_octets(&mut self.exts, lists.exts);
    }

    /// The IDs and the extensions that are marked here and not in the other table.
    pub fn without(&self, alloc: Global, other: &Identities) -> Result<NonInheritance, Memory>
        ensures { IfOk result (λ n. n ≡ (record {
          ids = filter (λ id. is_marked self.now id None && not (is_marked other.now id None)) octet_values;
          exts = filter (λ ext. is_marked self.now extended_id (Some ext) && not (is_marked other.now extended_id (Some ext))) octet_values;
          tail = [];
        })) }
    {
        let ids = numbers_of(alloc, &self.ids, &other.ids)?;
        let exts = numbers_of(alloc, &self.exts, &other.exts)?;
        let tail = Bytes::new(alloc);
        Ok(NonInheritance { ids, exts, tail })
    }
}
