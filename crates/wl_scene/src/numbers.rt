//! Lists of numbers as JSON values.

ghost use Rattle.std.specs.Prelude.{◌≡◌, ◌++◌, ◌∷◌, ℕ, List, map, if◌then◌else◌, IfOk, OnOk};
ghost use Rattle.serde_json.specs.View.{view, items_view};
ghost use Rattle.wl_elem.specs.Links.{has_link};
ghost use Rattle.wl_scene.specs.Objects.{whole, wholes};
ghost use Rattle.wl_scene.specs.Report.{ids_of};

use serde_json::Value;
use std::alloc::Global;
use wl_elem::{LinkId, LinkSet, Memory};

/// These numbers.
pub fn of_u16s(alloc: Global, list: &[u16]) -> Result<Vec<Value>, Memory>
    ensures { IfOk result (λ values. items_view values.items ≡ wholes list.now) }
{
    let mut values = Vec::with_capacity(alloc, list.len())?;
    'numbers: for n in list {
        values.push(Value::from(*n))?;
    }
    Ok(values)
}

/// These numbers.
pub fn of_u32s(alloc: Global, list: &[u32]) -> Result<Vec<Value>, Memory>
    ensures { IfOk result (λ values. items_view values.items ≡ wholes list.now) }
{
    let mut values = Vec::with_capacity(alloc, list.len())?;
    'numbers: for n in list {
        values.push(Value::from(*n))?;
    }
    Ok(values)
}

/// Link sets, each as the number of its bitmap.
pub fn of_sets(alloc: Global, sets: &[LinkSet]) -> Result<Vec<Value>, Memory>
    ensures { IfOk result (λ values. items_view values.items ≡ wholes sets.now) }
{
    let mut values = Vec::with_capacity(alloc, sets.len())?;
    'sets: for set in sets {
        values.push(Value::from(set.bits()))?;
    }
    Ok(values)
}

/// Adds the ID of a link, where it is in the set.
fn push_link(values: &mut Vec<Value>, set: LinkSet, link: LinkId) -> Result<(), Memory>
    ensures { OnOk result ((rest : List ℕ) → map view values.new.items ++ map whole rest ≡ map view values.old.items ++ map whole (if has_link set link then link ∷ rest else rest)) }
{
    if set.has(link) {
        values.push(Value::from(link.get()))?;
        return Ok(());
    }
    Ok(())
}

/// The IDs of a set's links.
#[tactic(auto, unfolding(crate::specs::Report::ids_of))]
pub fn of_links(alloc: Global, set: LinkSet) -> Result<Vec<Value>, Memory>
    ensures { IfOk result (λ values. items_view values.items ≡ wholes (ids_of set)) }
{
    let mut values = Vec::new(alloc);
    'links: for id in 0..15u8 {
        match LinkId::new(id) {
            Some(link) => push_link(&mut values, set, link)?,
            None => unreachable!(),
        }
    }
    Ok(values)
}
