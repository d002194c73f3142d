//! Reading the bodies.

ghost use Rattle.std.specs.Prelude.{◌≡◌, ◌≤◌, ◌+◌, ◌*◌, Result, IfOk, IfErr, length};
ghost use Rattle.wl_elem.specs.declared.fault.Refusal.{Refusal};
ghost use Rattle.wl_elem.specs.Answers.{Answers, AnswersOnly, IfRefused, moved};
ghost use Rattle.wl_elem.specs.Element.{body_limit};
ghost use Rattle.wl_elem.specs.ElementList.{Elems, ElemsRefused};
ghost use Rattle.wl_assoc.specs.declared.association.AssocAsk.{AssocAsk};
ghost use Rattle.wl_assoc.specs.declared.association.AssocReply.{AssocReply};
ghost use Rattle.wl_assoc.specs.Association.{ReadsAsk, ReadsReply};

use crate::association::{AssocAsk, AssocReply};
use crate::laws::{ask_read_once, reply_read_once};
use std::alloc::Global;
use wl_elem::{Elements, Fault, Why, decode_elements, first_u16};

/// The elements of octets that stand at this place of the input.
pub fn elements_at(alloc: Global, place: usize, octets: &[u8]) -> Result<Elements, Fault>
    requires { place + length octets.now ≤ body_limit }
    ensures read { IfOk result (λ list. Elems list octets.now) }
    ensures count { IfOk result (λ list. 2 * length list ≤ length octets.now) }
    ensures refused { IfErr result (λ fault. IfRefused fault (λ refusal. (inside : Refusal) × ElemsRefused octets.now inside × (refusal ≡ moved place inside))) }
{
    match decode_elements(alloc, octets) {
        Ok(elements) => Ok(elements),
        Err(fault) => Err(fault.moved(place)),
    }
}

/// Reads the body of an Association Request frame.
///
/// Ok exactly where the body is that of a value: capability and listen interval, each whole, and a
/// sound list of elements (IEEE Std 802.11, 9.3.3.5); each value has one body. Otherwise Truncated at
/// the first field that isn't whole, or what `decode_elements` says of the elements, with the place
/// counted in the body. `Memory` where there was none for the value; it says nothing of the body. The
/// body has at most 16,777,216 octets.
pub fn decode_ask(alloc: Global, body: &[u8]) -> Result<AssocAsk, Fault>
    requires { length body.now ≤ body_limit }
    ensures read { Answers result (ReadsAsk body.now) }
    ensures only { (reading : Result AssocAsk Refusal) → ReadsAsk body.now reading → AnswersOnly result reading }
    ensures count { IfOk result (λ ask. 2 * length ask.elements ≤ length body.now) }
{
    ask_read_once();
    let Some((capability, rest)) = first_u16(body) else {
        return Err(Fault::at(0, Why::Truncated));
    };
    let Some((listen, rest)) = first_u16(rest) else {
        return Err(Fault::at(2, Why::Truncated));
    };
    let elements = elements_at(alloc, 4, rest)?;
    Ok(AssocAsk {
        capability,
        listen,
        elements,
    })
}

/// Reads the body of an Association Response frame.
///
/// Ok exactly where the body is that of a value: capability, status and AID, each whole, and a sound
/// list of elements (IEEE Std 802.11, 9.3.3.6); each value has one body. Otherwise Truncated at the
/// first field that isn't whole, or what `decode_elements` says of the elements, with the place
/// counted in the body. `Memory` where there was none for the value; it says nothing of the body. The
/// body has at most 16,777,216 octets.
pub fn decode_reply(alloc: Global, body: &[u8]) -> Result<AssocReply, Fault>
    requires { length body.now ≤ body_limit }
    ensures read { Answers result (ReadsReply body.now) }
    ensures only { (reading : Result AssocReply Refusal) → ReadsReply body.now reading → AnswersOnly result reading }
    ensures count { IfOk result (λ reply. 2 * length reply.elements ≤ length body.now) }
{
    reply_read_once();
    let Some((capability, rest)) = first_u16(body) else {
        return Err(Fault::at(0, Why::Truncated));
    };
    let Some((status, rest)) = first_u16(rest) else {
        return Err(Fault::at(2, Why::Truncated));
    };
    let Some((aid, rest)) = first_u16(rest) else {
        return Err(Fault::at(4, Why::Truncated));
    };
    let elements = elements_at(alloc, 6, rest)?;
    Ok(AssocReply {
        capability,
        status,
        aid,
        elements,
    })
}
