//! Cutting a list into its items: the first piece of each and the Fragments that continue it, joined.

ghost use Rattle.std.specs.Prelude.{◌≡◌, ◌<◌, ◌≤◌, ◌*◌, List, Result, length, IfOk, IfErr};
ghost use Rattle.wl_elem.specs.Block.{begins_with_fragment, IsTaken, IsStopped, IsWithin, IsStoppedAs, CutAs, CutOnly};
ghost use Rattle.wl_elem.specs.Element.{body_limit};
ghost use Rattle.wl_elem.specs.declared.item.Item.{Item};
ghost use Rattle.wl_elem.specs.Items.{Items};
ghost use Rattle.wl_elem.specs.declared.block.Stop.{Stop};
ghost use Rattle.wl_elem.specs.declared.block.Stop.TheVariants.{Memory};

use crate::bytes::Bytes;
use crate::cutting_laws::{cut_off_once, items_not_both, items_read_once};
use crate::fault::Fault;
use crate::item::Item;
use crate::kind::ListKind;
use crate::piece::first_piece;
use crate::why::Why;
use std::alloc::{AllocError, AllocFailed, Global};

/// The item at the front of some octets, and what follows it.
#[derive(Drop)]
pub struct Block<'a> {
    /// The ID of its first piece.
    pub id: u8,
    /// The octets of its pieces, joined.
    pub information: Vec<u8>,
    /// The octets after its last piece.
    pub rest: &'a [u8],
}

/// Why a list isn't cut into items.
#[derive(Clone, Copy, Debug, PartialEq, Eq)]
pub enum Stop {
    /// A piece is refused where so many octets are left.
    CutOff { left: usize, why: Why },
    /// There was no memory for the items. It says nothing of the octets.
    Memory,
}

impl Stop {
    /// The fault of an input of this length whose reading stopped so.
    pub fn fault(self, len: usize) -> Fault
        requires fits { len ≤ body_limit }
        requires within { IsWithin len self }
        ensures { IsStoppedAs len self result }
    {
        match self {
            Stop::CutOff { left, why } => Fault::at(len - left, why),
            Stop::Memory => Fault::Memory,
        }
    }
}

impl From<AllocError> for Stop {
    ghost from_gives = { λ _ e. e ≡ Memory };

    fn from(_e: AllocError) -> Stop {
        Stop::Memory
    }
}

impl<T: Drop> From<AllocFailed<T>> for Stop {
    ghost from_gives = { λ _ e. e ≡ Memory };

    fn from(_e: AllocFailed<T>) -> Stop {
        Stop::Memory
    }
}

/// Whether the octets begin with a header of a Fragment.
fn begins_with_fragment(kind: ListKind, octets: &[u8]) -> bool
    ensures { result ≡ begins_with_fragment kind octets.now }
{
    match octets {
        [id, _, ..] => *id == kind.fragment_id(),
        _ => false,
    }
}

/// The first item of a list. A piece of Length 255 that a Fragment follows is continued by it.
pub fn first_block(alloc: Global, kind: ListKind, input: &[u8]) -> Result<Block<'_>, Stop>
    requires { 0 < length input.now }
    ensures taken { IfOk result (λ b. IsTaken kind b.id b.information.items b.rest.now input.now) }
    ensures stopped { IfErr result (λ stop. IsStopped kind input.now stop) }
{
    let first = match first_piece(kind, false, input) {
        Ok(piece) => piece,
        Err(why) => {
            return Err(Stop::CutOff {
                left: input.len(),
                why,
            });
        }
    };
    let id = first.id;
    let mut information = Vec::from_slice(alloc, first.octets)?;
    let mut full = first.octets.len() == 255;
    let mut rest = first.rest;
    'fragments: while full && begins_with_fragment(kind, rest) {
        let next = match first_piece(kind, true, rest) {
            Ok(piece) => piece,
            Err(why) => {
                return Err(Stop::CutOff {
                    left: rest.len(),
                    why,
                });
            }
        };
        information.extend_from_slice(next.octets)?;
        full = next.octets.len() == 255;
        rest = next.rest;
    }
    Ok(Block {
        id,
        information,
        rest,
    })
}

/// The items that octets are cut into, all of the octets.
///
/// Ok exactly where the octets are the pieces of items; each list has one spelling. Otherwise
/// `CutOff` at the first piece that breaks a rule, with as many octets left as stand from its header
/// on: in this order the kind's name for octets that aren't whole where fewer than 2 are left,
/// StrayFragment where a Fragment doesn't directly follow a piece of Length 255, EmptyFragment where
/// it has Length 0, NoExtension where an ID with an extension has Length 0, the first name again
/// where fewer octets are left than the Length. `Memory` where there was none for the items.
pub fn cut_items(alloc: Global, kind: ListKind, input: &[u8]) -> Result<Vec<Item>, Stop>
    ensures cut { IfOk result (λ list. Items kind list.items input.now) }
    ensures count { IfOk result (λ list. 2 * length list.items ≤ length input.now) }
    ensures stopped { IfErr result (λ stop. IsStopped kind input.now stop) }
    ensures only { (cutting : Result (List Item) Stop) → CutAs kind input.now cutting → CutOnly result cutting }
{
    items_read_once();
    items_not_both();
    cut_off_once();
    let mut list = Vec::new(alloc);
    let mut rest = input;
    'items: while !rest.is_empty() {
        let block = first_block(alloc, kind, rest)?;
        rest = block.rest;
        list.push(Item {
            id: block.id,
            octets: Bytes::from_vec(block.information),
        })?;
    }
    Ok(list)
}
