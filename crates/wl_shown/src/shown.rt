//! The shown line of some octets.

ghost use Rattle.std.specs.Prelude.{◌≤◌, length, Ok, OnOk, IfErr};
ghost use Rattle.std.specs.String.{string_bytes};
ghost use Rattle.wl_elem.specs.Element.{body_limit};
ghost use Rattle.wl_shown.specs.Shown.{FrameAs, AnswerAs, IsFaultOf, AddsShown};

use crate::action::put_action;
use crate::association::{put_ask, put_reply};
use crate::frame::push_frame;
use crate::item::put_list;
use crate::line::Kind;
use crate::show::push_refusal;
use std::alloc::Global;
use wl_elem::{Fault, Memory};
use wl_frame::decode_frame;

/// Makes `items` the frame that the octets are; or answers their fault, and then `items` has no meaning.
fn put_frame(alloc: Global, items: &mut String, octets: &[u8]) -> Result<(), Fault>
    ensures shown { OnOk result (FrameAs octets.now (Ok (string_bytes items.new))) }
    ensures refused { IfErr result (IsFaultOf (FrameAs octets.now)) }
{
    let frame = match decode_frame(octets) {
        Ok(frame) => frame,
        Err(refusal) => return Err(Fault::Refused(refusal)),
    };
    items.clear();
    items.push_str(" ")?;
    push_frame(alloc, items, &frame)?;
    Ok(())
}

/// Makes `items` what the octets of a kind are shown as, behind `ok`; or answers their fault, and then
/// `items` has no meaning.
pub fn put_answer(alloc: Global, items: &mut String, kind: Kind, octets: &[u8]) -> Result<(), Fault>
    requires { length octets.now ≤ body_limit }
    ensures shown { OnOk result (AnswerAs kind octets.now (Ok (string_bytes items.new))) }
    ensures refused { IfErr result (IsFaultOf (AnswerAs kind octets.now)) }
{
    match kind {
        Kind::Elements => put_list(alloc, items, octets),
        Kind::Frame => put_frame(alloc, items, octets),
        Kind::Action => put_action(alloc, items, octets),
        Kind::AssocAsk => put_ask(alloc, items, octets),
        Kind::AssocReply => put_reply(alloc, items, octets),
    }
}

/// Adds the line that is shown for octets of a kind, without its end: `ok` and its items, or the
/// refusal. The items are made in `scratch` first, since what comes last may be refused; its room
/// serves from one line to the next.
pub fn push_shown(
    alloc: Global,
    scratch: &mut String,
    out: &mut String,
    kind: Kind,
    octets: &[u8],
) -> Result<(), Memory>
    requires { length octets.now ≤ body_limit }
    ensures { OnOk result (AddsShown kind octets.now (string_bytes out.old) (string_bytes out.new)) }
{
    match put_answer(alloc, scratch, kind, octets) {
        Ok(()) => {
            out.push_str("ok")?;
            out.push_str(scratch.as_str())?;
            Ok(())
        }
        Err(Fault::Refused(refusal)) => push_refusal(out, &refusal),
        Err(Fault::Memory) => Err(Memory),
    }
}
