//! Copies of elements.

ghost use Rattle.std.specs.Prelude.{◌≡◌, ◌++◌, Bool, IfOk, OnOk, filter};
ghost use Rattle.wl_elem.specs.Element.{ElementValue};
ghost use Rattle.wl_inherit.specs.Marks.{TakesOthers};

use crate::identities::Identities;
use std::alloc::Global;
use wl_elem::{Bytes, Element, Elements, Memory};

/// A copy of an element.
fn copy_of(alloc: Global, element: &Element) -> Result<Element, Memory>
    ensures { IfOk result (λ copy. copy ≡ element.now) }
{
    let body = Bytes::from_slice(alloc, element.body())?;
    match Element::new(element.id(), element.ext(), body) {
        Some(copy) => Ok(copy),
        None => unreachable!(),
    }
}

/// Adds copies of those elements whose identity isn't marked, in order.
pub fn put_others(
    alloc: Global,
    list: &mut Elements,
    from: &Elements,
    marks: &Identities,
) -> Result<(), Memory>
    ensures { (test : ElementValue → Bool) → TakesOthers test from.now marks.now → OnOk result (list.new ≡ list.old ++ filter test from.now) }
{
    'elements: for element in from.as_slice() {
        if !marks.has(element.id(), element.ext()) {
            list.push(copy_of(alloc, element)?)?;
        }
    }
    Ok(())
}
