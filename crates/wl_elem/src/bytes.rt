//! Octets on the heap.

ghost use Rattle.std.specs.Prelude.{◌≡◌, ◌==◌, ◌<◌, ◌^◌, ◌++◌, ◌∷◌, [], length, take, List, ℕ, IfOk, OnOk, OnErr, slice_get, option_copied};

use crate::fault::Memory;
use std::alloc::Global;
use std::marker::Model;

/// A list of octets, as a body or a payload.
#[derive(Debug, Drop)]
pub struct Bytes {
    octets: Vec<u8>,
}

impl Model for Bytes {
    ghost Value = { List ℕ };

    ghost view = { λ b. b.octets.items };
}

impl Bytes {
    /// No octets. It takes no memory.
    pub fn new(alloc: Global) -> Bytes
        ensures { result ≡ [] }
    {
        Bytes {
            octets: Vec::new(alloc),
        }
    }

    /// A copy of these octets.
    pub fn from_slice(alloc: Global, octets: &[u8]) -> Result<Bytes, Memory>
        ensures { IfOk result (λ b. b ≡ octets.now) }
    {
        let octets = Vec::from_slice(alloc, octets)?;
        Ok(Bytes { octets })
    }

    /// These octets. It takes no memory.
    pub fn from_vec(octets: Vec<u8>) -> Bytes
        ensures { result ≡ octets.items }
    {
        Bytes { octets }
    }

    /// The same octets as a `Vec`. It takes no memory.
    pub fn into_vec(self) -> Vec<u8>
        ensures { result.items ≡ self }
    {
        self.octets
    }

    /// Adds an octet at the end. After `Memory` the list is as it was.
    pub fn push(&mut self, octet: u8) -> Result<(), Memory>
        ensures ok { OnOk result (self.new ≡ self.old ++ octet ∷ []) }
        ensures err { OnErr result (self.new ≡ self.old) }
    {
        self.octets.push(octet)?;
        Ok(())
    }

    /// Adds octets at the end, in order. After `Memory` the list is as it was.
    pub fn extend(&mut self, octets: &[u8]) -> Result<(), Memory>
        ensures ok { OnOk result (self.new ≡ self.old ++ octets.now) }
        ensures err { OnErr result (self.new ≡ self.old) }
    {
        self.octets.extend_from_slice(octets)?;
        Ok(())
    }

    /// Leaves the first octets, at most so many. It takes no memory.
    pub fn truncate(&mut self, len: usize)
        ensures { self.new ≡ take len self.old }
    {
        self.octets.truncate(len);
    }

    /// How many octets there are.
    pub fn len(&self) -> u32
        requires { length self.now < 2 ^ 32 }
        ensures { result ≡ length self.now }
    {
        self.octets.len() as u32
    }

    /// Whether there are none.
    pub fn is_empty(&self) -> bool
        ensures { result ≡ (length self.now == 0) }
    {
        self.octets.is_empty()
    }

    /// The octet at an index. None exactly from the length up.
    pub fn get(&self, i: u32) -> Option<&u8>
        ensures { option_copied result ≡ slice_get self.now i }
    {
        self.octets.get(i as usize)
    }

    /// The octets as a slice.
    pub fn as_slice(&self) -> &[u8]
        ensures { result.now ≡ self.now }
    {
        self.octets.as_slice()
    }
}
