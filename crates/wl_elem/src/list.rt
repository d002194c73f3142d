//! Lists of values.

ghost use Rattle.std.specs.Prelude.{◌≡◌, ◌==◌, ◌<◌, ◌^◌, ◌++◌, ◌∷◌, [], length, IfOk, OnOk, OnErr, slice_get, option_copied};

use crate::fault::Memory;
use std::alloc::Global;
use std::marker::Model;

/// A list of values, in order. Contracts see it as a list.
#[derive(Debug, Drop)]
pub struct List<T> {
    items: Vec<T>,
}

impl<T> Model for List<T> {
    ghost use Rattle.std.specs.Prelude.{List as Values};

    ghost Value = { Values T };

    ghost view = { λ l. l.items.items };
}

impl<T: Drop> List<T> {
    /// No values. It takes no memory.
    pub fn new(alloc: Global) -> List<T>
        ensures { result ≡ [] }
    {
        List {
            items: Vec::new(alloc),
        }
    }

    /// These values. It takes no memory.
    pub fn from_vec(items: Vec<T>) -> List<T>
        ensures { result ≡ items.items }
    {
        List { items }
    }

    /// The same values as a `Vec`. It takes no memory.
    pub fn into_vec(self) -> Vec<T>
        ensures { result.items ≡ self }
    {
        self.items
    }

    /// Adds a value at the end. After `Memory` the list is as it was.
    pub fn push(&mut self, value: T) -> Result<(), Memory>
        ensures ok { OnOk result (self.new ≡ self.old ++ value ∷ []) }
        ensures err { OnErr result (self.new ≡ self.old) }
    {
        self.items.push(value)?;
        Ok(())
    }

    /// How many values there are.
    pub fn len(&self) -> u32
        requires { length self.now < 2 ^ 32 }
        ensures { result ≡ length self.now }
    {
        self.items.len() as u32
    }

    /// Whether there are none.
    pub fn is_empty(&self) -> bool
        ensures { result ≡ (length self.now == 0) }
    {
        self.items.is_empty()
    }

    /// The value at an index. None exactly from the length up.
    pub fn get(&self, i: u32) -> Option<&T>
        ensures { option_copied result ≡ slice_get self.now i }
    {
        self.items.get(i as usize)
    }

    /// The values as a slice.
    pub fn as_slice(&self) -> &[T]
        ensures { result.now ≡ self.now }
    {
        self.items.as_slice()
    }
}

impl<T: Copy + Drop> List<T> {
    /// A copy of these values.
    pub fn from_slice(alloc: Global, values: &[T]) -> Result<List<T>, Memory>
        ensures { IfOk result (λ list. list ≡ values.now) }
    {
        let items = Vec::from_slice(alloc, values)?;
        Ok(List { items })
    }
}
