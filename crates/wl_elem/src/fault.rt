//! What decoders answer when they give no value.

ghost use Rattle.std.specs.Prelude.{◌≡◌, ◌+◌, ◌<◌, ◌^◌};
ghost use Rattle.wl_elem.specs.declared.fault.Fault.TheVariants.{Refused, Memory};
ghost use Rattle.wl_elem.specs.Answers.{refusal_at, in_element, in_sub, in_inner, moved, with_refusal, IfRefused};

use crate::why::Why;
use std::alloc::{AllocError, AllocFailed};

/// There was no memory for the answer.
#[derive(Clone, Copy, Debug, PartialEq, Eq)]
pub struct Memory;

/// The temporal key is the last one, number 65,535: there is none after it.
#[derive(Clone, Copy, Debug, PartialEq, Eq)]
pub struct KeysSpent;

impl From<AllocError> for Memory {
    fn from(_e: AllocError) -> Memory {
        Memory
    }
}

impl<T: Drop> From<AllocFailed<T>> for Memory {
    fn from(_e: AllocFailed<T>) -> Memory {
        Memory
    }
}

/// Why and where an input is refused.
///
/// The deepest index that is there says what `place` counts in: with none of them the input, with
/// `element` the joined body of that element of the list, with `sub` the joined octets of that
/// subelement, with `inner` the joined body of that element of a profile's list.
#[derive(Clone, Copy, Debug, PartialEq, Eq)]
pub struct Refusal {
    /// The index in the element list.
    pub element: Option<u32>,
    /// The index of a subelement.
    pub sub: Option<u32>,
    /// The index in a profile's element list.
    pub inner: Option<u32>,
    /// The octet at which the rule is broken, counted from 0.
    pub place: u32,
    /// Which rule it is.
    pub why: Why,
}

impl Refusal {
    /// The refusal at this place of the input, with no index.
    pub fn at(place: usize, why: Why) -> Refusal
        requires { place < 2 ^ 32 }
        ensures { result ≡ refusal_at place why }
    {
        Refusal {
            element: None,
            sub: None,
            inner: None,
            place: place as u32,
            why,
        }
    }

    /// The same refusal with this index in the element list.
    pub fn in_element(self, index: usize) -> Refusal
        requires { index < 2 ^ 32 }
        ensures { result ≡ in_element index self }
    {
        Refusal {
            element: Some(index as u32),
            ..self
        }
    }

    /// The same refusal with this index of a subelement.
    pub fn in_sub(self, index: usize) -> Refusal
        requires { index < 2 ^ 32 }
        ensures { result ≡ in_sub index self }
    {
        Refusal {
            sub: Some(index as u32),
            ..self
        }
    }

    /// The same refusal with this index in a profile's element list.
    pub fn in_inner(self, index: usize) -> Refusal
        requires { index < 2 ^ 32 }
        ensures { result ≡ in_inner index self }
    {
        Refusal {
            inner: Some(index as u32),
            ..self
        }
    }

    /// The same refusal with its place counted from so many octets further in front.
    pub fn moved(self, offset: usize) -> Refusal
        requires { offset + self.place < 2 ^ 32 }
        ensures { result ≡ moved offset self }
    {
        Refusal {
            place: offset as u32 + self.place,
            ..self
        }
    }
}

/// Why a decoder gave no value.
#[derive(Clone, Copy, Debug, PartialEq, Eq)]
pub enum Fault {
    /// The input isn't in the grammar.
    Refused(Refusal),
    /// There was no memory for the value. It says nothing of the input.
    Memory,
}

impl Fault {
    /// The refusal at this place of the input, with no index.
    pub fn at(place: usize, why: Why) -> Fault
        requires { place < 2 ^ 32 }
        ensures { result ≡ Refused (refusal_at place why) }
    {
        Fault::Refused(Refusal::at(place, why))
    }

    /// The same fault with this index in the element list.
    pub fn in_element(self, index: usize) -> Fault
        requires { index < 2 ^ 32 }
        ensures { result ≡ with_refusal (in_element index) self }
    {
        match self {
            Fault::Refused(refusal) => Fault::Refused(refusal.in_element(index)),
            Fault::Memory => Fault::Memory,
        }
    }

    /// The same fault with this index of a subelement.
    pub fn in_sub(self, index: usize) -> Fault
        requires { index < 2 ^ 32 }
        ensures { result ≡ with_refusal (in_sub index) self }
    {
        match self {
            Fault::Refused(refusal) => Fault::Refused(refusal.in_sub(index)),
            Fault::Memory => Fault::Memory,
        }
    }

    /// The same fault with its place counted from so many octets further in front.
    pub fn moved(self, offset: usize) -> Fault
        requires { IfRefused self (λ refusal. offset + refusal.place < 2 ^ 32) }
        ensures { result ≡ with_refusal (moved offset) self }
    {
        match self {
            Fault::Refused(refusal) => Fault::Refused(refusal.moved(offset)),
            Fault::Memory => Fault::Memory,
        }
    }
}

impl From<AllocError> for Fault {
    ghost from_gives = { λ _ e. e ≡ Memory };

    fn from(_e: AllocError) -> Fault {
        Fault::Memory
    }
}

impl<T: Drop> From<AllocFailed<T>> for Fault {
    ghost from_gives = { λ _ e. e ≡ Memory };

    fn from(_e: AllocFailed<T>) -> Fault {
        Fault::Memory
    }
}

impl From<Memory> for Fault {
    ghost from_gives = { λ _ e. e ≡ Memory };

    fn from(_e: Memory) -> Fault {
        Fault::Memory
    }
}
