//! Lists of sequence numbers.

ghost use Rattle.std.specs.Prelude.{◌≡◌, ◌==◌, ◌+◌, ◌<◌, ◌≤◌, ◌++◌, ◌∷◌, [], ℕ, length};
ghost use Rattle.std.specs.List.{AllByRecursion};
ghost use Rattle.wl_window.specs.Numbers12.{padded};

use std::marker::Model;

/// A list of up to 1,024 sequence numbers, each below 4096, kept in place.
#[derive(Clone, Copy, Debug, PartialEq, Eq)]
pub struct Numbers12 {
    /// What is behind `len` is 0.
    numbers: [u16; 1024],
    len: u16,
}

impl Model for Numbers12 {
    ghost use Rattle.std.specs.Prelude.{List, ℕ};

    ghost Value = { List ℕ };

    ghost use Rattle.wl_window.specs.Numbers12.{numbers_of, of_numbers, IsNumbers12};

    ghost view = { numbers_of };

    ghost invariant = { IsNumbers12 };

    ghost inverse = { of_numbers };

    ghost inverse_ok = { λ list is. is.whole };
}

/// The places of no numbers.
fn zeros() -> [u16; 1024]
    ensures { result ≡ padded [] }
{
    [0; 1024]
}

impl Numbers12 {
    /// No numbers.
    pub fn new() -> Numbers12
        ensures { result ≡ [] }
    {
        Numbers12 {
            numbers: zeros(),
            len: 0,
        }
    }

    /// Adds a number at the end, where there is room.
    pub fn push(&mut self, number: u16)
        requires room { length self.old < 1024 }
        requires short { number < 4096 }
        ensures { self.new ≡ self.old ++ number ∷ [] }
    {
        self.numbers[usize::from(self.len)] = number;
        self.len += 1;
    }

    /// How many numbers there are, at most 1,024.
    pub fn len(&self) -> u16
        ensures value { result ≡ length self.now }
        ensures limit { result ≤ 1024 }
    {
        self.len
    }

    /// Whether there are none.
    pub fn is_empty(&self) -> bool
        ensures { result ≡ (length self.now == 0) }
    {
        self.len == 0
    }

    /// The numbers, in order. Each is below 4096.
    pub fn as_slice(&self) -> &[u16]
        ensures value { result.now ≡ self.now }
        ensures limit { length result.now ≤ 1024 }
        ensures short { AllByRecursion (λ number. number < 4096) result.now }
    {
        &self.numbers[..usize::from(self.len)]
    }
}
