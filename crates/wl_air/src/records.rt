//! What an end told its peer apart from frames: acknowledgements, and requests to move a window.

ghost use Rattle.std.specs.Prelude.{◌≡◌, ◌++◌, ◌∷◌, [], length, option_copied, slice_get, OnOk, OnErr};
ghost use Rattle.wl_history.specs.Words.{at, last_of, nth_of};

use std::alloc::Global;
use std::marker::Model;
use wl_elem::Memory;

/// The one at an index. None exactly from the length up.
fn record_at<T>(records: &[T], index: usize) -> Option<&T>
    ensures { option_copied result ≡ slice_get records.now index }
{
    records.get(index)
}

/// The last one. None exactly where there is none.
fn latest<T>(records: &[T]) -> Option<&T>
    ensures { option_copied result ≡ last_of records.now }
{
    match records.len() {
        0 => None,
        n => record_at(records, n - 1),
    }
}

/// What an end told its peer, in order.
#[derive(Debug, Drop)]
pub struct Records<T> {
    list: Vec<T>,
}

impl<T> Model for Records<T> {
    ghost use Rattle.std.specs.Prelude.{List};

    ghost Value = { List T };

    ghost view = { λ r. r.list.items };
}

impl<T: Drop> Records<T> {
    ghost use Rattle.std.specs.Prelude.{List};

    /// None was made. It takes no memory.
    pub fn new(alloc: Global) -> Records<T>
        ensures { result ≡ [] }
    {
        Records {
            list: Vec::new(alloc),
        }
    }

    /// One more was made. After `Memory` nothing has changed.
    pub fn push(&mut self, told: T) -> Result<(), Memory>
        ensures ok { OnOk result (self.new ≡ self.old ++ told ∷ []) }
        ensures err { OnErr result (self.new ≡ self.old) }
    {
        self.list.push(told)?;
        Ok(())
    }

    /// Puts another one in the place of the last. It takes no memory.
    pub fn settle(&mut self, told: T)
        requires { (before : List T) × (last : T) × (self.old ≡ before ++ last ∷ []) }
        ensures { (before : List T) (last : T) → self.old ≡ before ++ last ∷ [] → self.new ≡ before ++ told ∷ [] }
    {
        self.list.pop();
        match self.list.push(told) {
            Ok(()) => (),
            Err(_) => unreachable!(),
        }
    }

    /// Takes the last one back. It takes no memory.
    pub fn take_back(&mut self)
        ensures { (before : List T) (last : T) → self.old ≡ before ++ last ∷ [] → self.new ≡ before }
    {
        self.list.pop();
    }

    /// The one of this number, from 0, or the latest.
    pub fn named(&self, nth: Option<u32>) -> Option<&T>
        ensures { option_copied result ≡ nth_of nth self.now }
    {
        match nth {
            Some(n) => record_at(self.list.as_slice(), n as usize),
            None => latest(self.list.as_slice()),
        }
    }
}
