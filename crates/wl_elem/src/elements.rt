//! Lists of elements.

ghost use Rattle.std.specs.Prelude.{◌≡◌, ◌==◌, ◌<◌, ◌^◌, ◌++◌, ◌∷◌, [], length, List, OnOk, OnErr, slice_get, option_copied};
ghost use Rattle.wl_elem.specs.Finding.{IsFirst};

use crate::element::Element;
use crate::fault::Memory;
use std::alloc::Global;
use std::marker::Model;

/// A list of elements, in order. Each has the shape of one, as its calls say.
#[derive(Debug, Drop)]
pub struct Elements {
    list: Vec<Element>,
}

impl Model for Elements {
    ghost use Rattle.std.specs.Prelude.{List};
    ghost use Rattle.std.specs.List.{AllByRecursion};
    ghost use Rattle.wl_elem.specs.Element.{ElementValue, HasShape};

    ghost Value = { List ElementValue };

    ghost view = { λ e. e.list.items };

    ghost invariant = { λ e. AllByRecursion HasShape e.list.items };
}

impl Elements {
    ghost use Rattle.std.specs.List.{AllByRecursion};
    ghost use Rattle.wl_elem.specs.Element.{HasShape};

    /// No elements. It takes no memory.
    pub fn new(alloc: Global) -> Elements
        ensures { result ≡ [] }
    {
        Elements {
            list: Vec::new(alloc),
        }
    }

    /// Adds an element at the end. After `Memory` the list is as it was.
    pub fn push(&mut self, e: Element) -> Result<(), Memory>
        ensures ok { OnOk result (self.new ≡ self.old ++ e ∷ []) }
        ensures err { OnErr result (self.new ≡ self.old) }
    {
        e.facts();
        self.list.push(e)?;
        Ok(())
    }

    /// How many elements there are.
    pub fn len(&self) -> u32
        requires { length self.now < 2 ^ 32 }
        ensures { result ≡ length self.now }
    {
        self.list.len() as u32
    }

    /// Whether there are none.
    pub fn is_empty(&self) -> bool
        ensures { result ≡ (length self.now == 0) }
    {
        self.list.is_empty()
    }

    /// The element at an index. None exactly from the length up.
    pub fn get(&self, i: u32) -> Option<&Element>
        ensures { option_copied result ≡ slice_get self.now i }
    {
        self.list.get(i as usize)
    }

    /// The elements as a slice.
    pub fn as_slice(&self) -> &[Element]
        ensures value { result.now ≡ self.now }
        ensures shapes { AllByRecursion HasShape self.now }
    {
        self.list.as_slice()
    }
}

/// The least index from `from` whose element has this ID and extension. None exactly where there is
/// none. The list has fewer than 2^32 elements.
pub fn find(list: &Elements, id: u8, ext: Option<u8>, from: u32) -> Option<u32>
    requires { length list.now < 2 ^ 32 }
    ensures { IsFirst list.now id ext from result }
{
    let elements = list.as_slice();
    for i in from as usize..elements.len() {
        if elements[i].has_identity(id, ext) {
            return Some(i as u32);
        }
    }
    None
}
