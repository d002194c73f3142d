//! The four Info fields: each follows a control word and begins with its length; behind the known
//! fields, each of which is there or not, its tail goes on up to that length.

ghost use Rattle.std.specs.Prelude.{◌≡◌, ◌↔◌, ◌+◌, ◌≤◌, ◌%◌, ◌++◌, ℕ, Bool, List, Option, IsTrue, Some, None, IfOk, IfErr, OnOk, length, drop};
ghost use Rattle.wl_elem.specs.declared.fault.Refusal.{Refusal};
ghost use Rattle.wl_elem.specs.Answers.{IfRefused};
ghost use Rattle.wl_elem.specs.Octets.{octets_of};
ghost use Rattle.wl_mle.specs.Fields.{word_of, known, known_len, info, need, info_fault, at_info, area_of, behind_info, IsShort};
ghost use Rattle.wl_mle.specs.Reading.{fields_at, after_fields};

use std::alloc::Global;
use wl_elem::{Bytes, Fault, LinkId, Memory, Why, put_u16};

/// A value with a control word and an Info field.
pub trait Info: Drop {
    // the slots of the fields behind a control word
    ghost slots: { ℕ → List (Bool × ℕ) };

    // what is written: the control word, the known fields and the tail
    ghost word: { Self → ℕ };

    ghost fields: { Self → List (Option (List ℕ)) };

    ghost tail: { Self → List ℕ };

    // what has octets, and what the types of the fields give of that
    ghost IsInfo: { Self → Type 0 };

    ghost IsTyped: { Self → Type 0 };

    /// How many octets the known fields take behind this control word.
    fn need(control: u16) -> usize
        ensures { result ≡ need (slots control) };

    /// How many octets the known fields take. Each has the room that its type gives.
    fn known_len(&self) -> usize
        ensures exact { result ≡ known_len (fields self.now) }
        ensures bound { result ≤ 21 }
        ensures typed { IsTyped self.now };

    /// The control word.
    fn control(&self) -> u16
        requires { IsInfo self.now }
        ensures { result ≡ word self.now };

    /// Adds the known fields.
    fn put_known(&self, out: &mut Bytes) -> Result<(), Memory>
        requires { IsInfo self.now }
        ensures { OnOk result (out.new ≡ out.old ++ known (fields self.now)) };

    /// What stands behind the known fields.
    fn tail(&self) -> &[u8]
        ensures { result.now ≡ tail self.now };
}

/// A profile: STA Info is its Info field, and its body follows that.
pub trait StaInfo: Info {
    // the profile of a control word, the fields, the tail and the body
    ghost made: { ℕ → List (Option (List ℕ)) → List ℕ → List ℕ → Self };

    /// The profile of these octets of STA Info behind its length, and of this body.
    fn of_area(
        alloc: Global,
        control: u16,
        link: LinkId,
        area: &[u8],
        body: &[u8],
    ) -> Result<Self, Memory>
        requires link { link ≡ control % 16 }
        requires whole { need (Self.slots control) ≤ length area.now }
        ensures { IfOk result (λ p. p ≡ made control (fields_at (Self.slots control) area.now) (after_fields (Self.slots control) area.now) body.now) };
}

/// The control word that octets begin with, and what follows it.
pub fn control_of(octets: &[u8]) -> (u16, &[u8])
    requires { 2 ≤ length octets.now }
    ensures word { result.0 ≡ word_of octets.now }
    ensures behind { result.1.now ≡ drop 2 octets.now }
{
    match octets {
        [low, high, rest @ ..] => (u16::from_le_bytes([*low, *high]), rest),
        _ => unreachable!(),
    }
}

/// The octets of an Info field behind its length, and what follows it. The known fields take `least`.
pub fn info_of(least: usize, short: Why, long: Why, rest: &[u8]) -> Result<(&[u8], &[u8]), Fault>
    ensures fault { IfErr result (λ fault. IfRefused fault (λ refusal. (other : Option Refusal) → at_info (info_fault short long least rest.now) other ≡ Some refusal)) }
    ensures sound { IfOk result (λ x. info_fault short long least rest.now ≡ None) }
    ensures area { IfOk result (λ x. x.0.now ≡ area_of rest.now) }
    ensures behind { IfOk result (λ x. x.1.now ≡ behind_info rest.now) }
    ensures enough { IfOk result (λ x. least ≤ length x.0.now) }
    ensures room { IfOk result (λ x. length x.0.now + length x.1.now + 1 ≡ length rest.now) }
{
    let [len, after @ ..] = rest else {
        return Err(Fault::at(2, short));
    };
    let len = *len as usize;
    if len <= least {
        return Err(Fault::at(2, short));
    }
    if after.len() < len - 1 {
        return Err(Fault::at(2, long));
    }
    Ok(after.split_at(len - 1))
}

/// Whether an Info field is no longer than its length octet can say.
#[tactic(auto, using(crate::proofs::Writing::known_length))]
pub fn is_short<I: Info>(value: &I) -> bool
    ensures exact { IsTrue result ↔ IsShort (I.fields value.now) (I.tail value.now) }
    ensures typed { I.IsTyped value.now }
{
    value.tail().len() < 255 - value.known_len()
}

/// How many octets the control word and the Info field take.
#[tactic(auto, using(crate::proofs::Writing::known_length))]
pub fn head_len<I: Info>(value: &I) -> usize
    requires { IsShort (I.fields value.now) (I.tail value.now) }
    ensures exact { result ≡ 3 + known_len (I.fields value.now) + length (I.tail value.now) }
    ensures bound { result ≤ 257 }
{
    3 + value.known_len() + value.tail().len()
}

/// Adds the control word and the Info field.
pub fn put_info<I: Info>(out: &mut Bytes, value: &I) -> Result<(), Memory>
    requires is { I.IsInfo value.now }
    requires short { IsShort (I.fields value.now) (I.tail value.now) }
    ensures { OnOk result (out.new ≡ out.old ++ (octets_of 2 (I.word value.now) ++ info (I.fields value.now) (I.tail value.now))) }
{
    put_u16(out, Some(value.control()))?;
    out.push((head_len(value) - 2) as u8)?;
    value.put_known(out)?;
    out.extend(value.tail())?;
    Ok(())
}
