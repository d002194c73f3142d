//! Lists of bodies and frames.

ghost use Rattle.std.specs.Prelude.{◌≡◌, ◌++◌, ◌∷◌, [], List, ℕ, length, slice_get, option_copied, OnOk, OnErr};
ghost use Rattle.wl_history.specs.Words.{last_of};

use std::alloc::Global;
use std::marker::Model;
use wl_elem::{Bytes, Memory};

/// Octet strings, in the order in which they came.
#[derive(Debug, Drop)]
pub(crate) struct Bodies {
    list: Vec<Bytes>,
}

impl Model for Bodies {
    ghost use Rattle.std.specs.Prelude.{List, ℕ};

    ghost Value = { List (List ℕ) };

    ghost view = { λ b. b.list.items };
}

impl Bodies {
    /// None. It takes no memory.
    pub fn new(alloc: Global) -> Bodies
        ensures { result ≡ [] }
    {
        Bodies {
            list: Vec::new(alloc),
        }
    }

    /// Adds one at the end. After `Memory` the list is as it was.
    pub fn push(&mut self, body: Bytes) -> Result<(), Memory>
        ensures ok { OnOk result (self.new ≡ self.old ++ body ∷ []) }
        ensures err { OnErr result (self.new ≡ self.old) }
    {
        self.list.push(body)?;
        Ok(())
    }

    /// Takes the last one back. It takes no memory.
    pub fn take_back(&mut self)
        ensures { (before : List (List ℕ)) (last : List ℕ) → self.old ≡ before ++ last ∷ [] → self.new ≡ before }
    {
        self.list.pop();
    }

    /// How many there are.
    pub fn len(&self) -> usize
        ensures { result ≡ length self.now }
    {
        self.list.len()
    }

    /// The one of this number, from 0. None exactly from the length up.
    pub fn get(&self, nth: usize) -> Option<&[u8]>
        ensures { option_copied result ≡ slice_get self.now nth }
    {
        match self.list.get(nth) {
            Some(body) => Some(body.as_slice()),
            None => None,
        }
    }

    /// The last one. None exactly where there is none.
    pub fn last(&self) -> Option<&[u8]>
        ensures { option_copied result ≡ last_of self.now }
    {
        match self.list.last() {
            Some(body) => Some(body.as_slice()),
            None => None,
        }
    }
}
