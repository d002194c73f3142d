//! A profile with what it inherits.

ghost use Rattle.std.specs.Prelude.{◌≡◌, ◌<◌, ◌^◌, ◌++◌, ◌∷◌, [], List, Option, Some, Result, Ok, IsTrue, IfOk, IfErr, OnOk, length};
ghost use Rattle.wl_elem.specs.declared.fault.Refusal.{Refusal};
ghost use Rattle.wl_elem.specs.Answers.{Answers, AnswersOnly};
ghost use Rattle.wl_elem.specs.Element.{ElementValue};
ghost use Rattle.wl_inherit.specs.NonInheritance.{NonRefused};
ghost use Rattle.wl_inherit.specs.Identity.{is_non};
ghost use Rattle.wl_inherit.specs.Inheritance.{BadNon, ExpandsAs};
ghost use Rattle.wl_inherit.specs.Marks.{LeavesOut};

use crate::copies::put_others;
use crate::decode::lists_of;
use crate::identities::Identities;
use std::alloc::Global;
use wl_elem::{EXTENDED, Element, Elements, Fault, NON_INHERITANCE, Refusal};

/// Whether an element is a Non-Inheritance element.
fn is_non(element: &Element) -> bool
    ensures { result ≡ is_non element.now.id element.now.ext }
{
    element.has_identity(EXTENDED, Some(NON_INHERITANCE))
}

/// Marks what isn't inherited because a profile has this element.
fn leave_out(marks: &mut Identities, element: &Element) -> Result<(), Refusal>
    ensures left_out { OnOk result ((profile : List ElementValue) → LeavesOut profile marks.old → LeavesOut (profile ++ element.now ∷ []) marks.new) }
    ensures bad { IfErr result (λ refusal. IsTrue (is_non element.now.id element.now.ext) × NonRefused element.now.body refusal) }
{
    marks.mark(element);
    if !is_non(element) {
        return Ok(());
    }
    marks.mark_lists(lists_of(element.body())?);
    Ok(())
}

/// Marks of all that a profile doesn't inherit: what is never inherited, what its Non-Inheritance
/// elements list, and what it has itself.
fn left_out_of(profile: &Elements) -> Result<Identities, Refusal>
    requires { length profile.now < 2 ^ 32 }
    ensures left_out { IfOk result (LeavesOut profile.now) }
    ensures bad { IfErr result (λ refusal. BadNon 0 profile.now refusal) }
{
    let mut marks = Identities::of_never_inherited();
    let elements = profile.as_slice();
    'own: for i in 0..elements.len() {
        if let Err(refusal) = leave_out(&mut marks, &elements[i]) {
            return Err(refusal.in_inner(i));
        }
    }
    Ok(marks)
}

/// The elements of a per-STA profile with those that it inherits from the frame that carries it.
///
/// Ok exactly where each Non-Inheritance element of the profile is that of a value. The list is then
/// the inherited elements of the frame in its order, and behind them the profile's own in theirs,
/// without its Non-Inheritance elements (IEEE Std 802.11be, 35.3). An element of the frame is
/// inherited unless it is a Multi-Link, TID-To-Link Mapping or Non-Inheritance element, a
/// Non-Inheritance element of the profile lists it, or the profile has one of its identity.
/// Otherwise Truncated as `decode_non` says it of the first Non-Inheritance element that has no
/// value, with `inner` its index in the profile. `Memory` where there was none for the list; it says
/// nothing of the profile. Each list has fewer than 2^32 elements.
pub fn expand(alloc: Global, outer: &Elements, profile: &Elements) -> Result<Elements, Fault>
    requires outer { length outer.now < 2 ^ 32 }
    requires profile { length profile.now < 2 ^ 32 }
    ensures read { Answers result (ExpandsAs outer.now profile.now) }
    ensures only { (reading : Result (List ElementValue) Refusal) → ExpandsAs outer.now profile.now reading → AnswersOnly result reading }
{
    let left_out = match left_out_of(profile) {
        Ok(marks) => marks,
        Err(refusal) => return Err(Fault::Refused(refusal)),
    };
    let mut list = Elements::new(alloc);
    put_others(alloc, &mut list, outer, &left_out)?;
    put_others(alloc, &mut list, profile, &Identities::of_non())?;
    Ok(list)
}
