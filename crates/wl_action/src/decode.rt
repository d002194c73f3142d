//! Reading bodies.

ghost use Rattle.std.specs.Prelude.{◌≡◌, ◌+◌, ◌*◌, ◌≤◌, ◌<◌, List, ℕ, None, Some, Result, [], slice_index, drop, length, IfOk};
ghost use Rattle.wl_elem.specs.declared.fault.Refusal.{Refusal};
ghost use Rattle.wl_elem.specs.Answers.{Answers, AnswersOnly};
ghost use Rattle.wl_elem.specs.Element.{body_limit};
ghost use Rattle.wl_action.specs.declared.action.Action.{Action};
ghost use Rattle.wl_action.specs.Action.{ReadAs, elements_of, field_fault};
ghost use Rattle.wl_action.specs.Reading.{statuses_in, links_width, update_width, made, BehindAs};

use crate::action::Action;
use crate::code::Code;
use crate::head::head_of;
use crate::laws::read_once;
use crate::list::list_of;
use crate::statuses::{LinkStatus, LinkStatuses};
use std::alloc::Global;
use wl_elem::{Bytes, Fault, Memory, u16_at};

/// The octets from an index on.
fn behind(octets: &[u8], i: usize) -> &[u8]
    requires { i ≤ length octets.now }
    ensures { result.now ≡ drop i octets.now }
{
    octets.split_at(i).1
}

fn map_ask(alloc: Global, rest: &[u8]) -> Result<Action, Fault>
    requires whole { 1 ≤ length rest.now }
    requires room { 2 + length rest.now ≤ body_limit }
    ensures { Answers result (BehindAs Code.MapAsk 0 rest.now) }
{
    let elements = list_of(alloc, Code::MapAsk, 3, behind(rest, 1))?;
    Ok(Action::MapAsk {
        token: rest[0],
        elements,
    })
}

fn map_reply(alloc: Global, rest: &[u8]) -> Result<Action, Fault>
    requires whole { 3 ≤ length rest.now }
    requires room { 2 + length rest.now ≤ body_limit }
    ensures { Answers result (BehindAs Code.MapReply 1 rest.now) }
{
    let elements = list_of(alloc, Code::MapReply, 5, behind(rest, 3))?;
    Ok(Action::MapReply {
        token: rest[0],
        status: u16_at(rest, 1),
        elements,
    })
}

fn map_teardown(alloc: Global, rest: &[u8]) -> Result<Action, Fault>
    ensures { Answers result (BehindAs Code.MapTeardown 2 rest.now) }
{
    let rest = Bytes::from_slice(alloc, rest)?;
    Ok(Action::MapTeardown { rest })
}

fn epcs(alloc: Global, action: u8, rest: &[u8]) -> Result<Action, Fault>
    ensures { Answers result (BehindAs Code.Epcs action rest.now) }
{
    let rest = Bytes::from_slice(alloc, rest)?;
    Ok(Action::Epcs { action, rest })
}

fn eml(alloc: Global, rest: &[u8]) -> Result<Action, Fault>
    requires { 2 + links_width rest.now + update_width rest.now ≤ length rest.now }
    ensures { Answers result (BehindAs Code.Eml 6 rest.now) }
{
    let control = rest[1];
    let mut end = 2;
    let mut links = None;
    if control % 2 == 1 {
        links = Some(u16_at(rest, end));
        end += 2;
    }
    let mut update = None;
    if control / 4 % 2 == 1 {
        update = Some(rest[end]);
        end += 1;
    }
    Ok(Action::Eml {
        token: rest[0],
        control,
        links,
        update,
        rest: Bytes::from_slice(alloc, behind(rest, end))?,
    })
}

fn reconf_ask(alloc: Global, rest: &[u8]) -> Result<Action, Fault>
    requires whole { 1 ≤ length rest.now }
    requires room { 2 + length rest.now ≤ body_limit }
    ensures { Answers result (BehindAs Code.ReconfAsk 11 rest.now) }
{
    let elements = list_of(alloc, Code::ReconfAsk, 3, behind(rest, 1))?;
    Ok(Action::ReconfAsk {
        token: rest[0],
        elements,
    })
}

/// So many links with their statuses.
fn statuses_of(alloc: Global, count: u8, octets: &[u8]) -> Result<LinkStatuses, Memory>
    requires { 3 * count ≤ length octets.now }
    ensures { IfOk result (λ list. list ≡ statuses_in count octets.now) }
{
    let mut list = LinkStatuses::new(alloc);
    let mut left = octets;
    'links: for _link in 0..count {
        list.push(LinkStatus {
            link: left[0],
            status: u16_at(left, 1),
        })?;
        left = behind(left, 3);
    }
    Ok(list)
}

fn reconf_reply(alloc: Global, rest: &[u8]) -> Result<Action, Fault>
    requires { 2 + 3 * slice_index rest.now 1 ≤ length rest.now }
    ensures { Answers result (BehindAs Code.ReconfReply 12 rest.now) }
{
    let count = rest[1];
    let list = statuses_of(alloc, count, behind(rest, 2))?;
    let end = 2 + 3 * usize::from(count);
    Ok(Action::ReconfReply {
        token: rest[0],
        list,
        rest: Bytes::from_slice(alloc, behind(rest, end))?,
    })
}

fn add_ba_ask(alloc: Global, rest: &[u8]) -> Result<Action, Fault>
    requires whole { 7 ≤ length rest.now }
    requires room { 2 + length rest.now ≤ body_limit }
    ensures { Answers result (BehindAs Code.AddBaAsk 0 rest.now) }
{
    let elements = list_of(alloc, Code::AddBaAsk, 9, behind(rest, 7))?;
    Ok(Action::AddBaAsk {
        token: rest[0],
        params: u16_at(rest, 1),
        timeout: u16_at(rest, 3),
        start: u16_at(rest, 5),
        elements,
    })
}

fn add_ba_reply(alloc: Global, rest: &[u8]) -> Result<Action, Fault>
    requires whole { 7 ≤ length rest.now }
    requires room { 2 + length rest.now ≤ body_limit }
    ensures { Answers result (BehindAs Code.AddBaReply 1 rest.now) }
{
    let elements = list_of(alloc, Code::AddBaReply, 9, behind(rest, 7))?;
    Ok(Action::AddBaReply {
        token: rest[0],
        status: u16_at(rest, 1),
        params: u16_at(rest, 3),
        timeout: u16_at(rest, 5),
        elements,
    })
}

fn del_ba(alloc: Global, rest: &[u8]) -> Result<Action, Fault>
    requires { 4 ≤ length rest.now }
    ensures { Answers result (BehindAs Code.DelBa 2 rest.now) }
{
    Ok(Action::DelBa {
        params: u16_at(rest, 0),
        reason: u16_at(rest, 2),
        rest: Bytes::from_slice(alloc, behind(rest, 4))?,
    })
}

/// Reads what stands behind category and action.
fn read_behind(alloc: Global, code: Code, action: u8, rest: &[u8]) -> Result<Action, Fault>
    requires whole { field_fault code rest.now ≡ None }
    requires room { 2 + length rest.now ≤ body_limit }
    ensures { Answers result (BehindAs code action rest.now) }
{
    match code {
        Code::MapAsk => map_ask(alloc, rest),
        Code::MapReply => map_reply(alloc, rest),
        Code::MapTeardown => map_teardown(alloc, rest),
        Code::Epcs => epcs(alloc, action, rest),
        Code::Eml => eml(alloc, rest),
        Code::ReconfAsk => reconf_ask(alloc, rest),
        Code::ReconfReply => reconf_reply(alloc, rest),
        Code::AddBaAsk => add_ba_ask(alloc, rest),
        Code::AddBaReply => add_ba_reply(alloc, rest),
        Code::DelBa => del_ba(alloc, rest),
    }
}

/// Reads a body.
fn read_body(alloc: Global, body: &[u8]) -> Result<Action, Fault>
    requires { length body.now ≤ body_limit }
    ensures { Answers result (ReadAs body.now) }
{
    match head_of(body) {
        Ok((code, action, rest)) => read_behind(alloc, code, action, rest),
        Err(refusal) => Err(Fault::Refused(refusal)),
    }
}

/// Reads the body of an Action frame, category and action first (IEEE Std 802.11be, 9.6.35, and IEEE
/// Std 802.11, 9.6.4).
///
/// Ok exactly where the body is that of a value; each value has one body. Otherwise, in this order:
/// Truncated at 0 where the body is empty, UnknownCategory at 0 where its category is neither 37 nor
/// 3, Truncated at 1 where there is no action, UnknownAction at 1 where the table has no such action;
/// Truncated at the first field that isn't whole, and in between, behind token and control of an EML
/// notice, EmlmrLeftOut at 3 where the control has B1. Then of the kinds with elements: the refusal
/// that `decode_elements` gives their octets, its place counted in the body; NoMapping at the first of
/// these octets where a mapping request has no or more than two mapping elements, or a mapping
/// response more than two; NoMultiLink there where a reconfiguration request hasn't exactly one
/// Multi-Link element, or it isn't of type 2; and the refusal of the first of these elements that
/// `decode_ttlm` or `decode_ml` refuses, with `element`. No other elements are decoded. `Memory` where
/// there was none for the value; it says nothing of the body. The body has at most 16,777,216 octets,
/// and at least two for each element.
pub fn decode_action(alloc: Global, body: &[u8]) -> Result<Action, Fault>
    requires { length body.now ≤ body_limit }
    ensures read { Answers result (ReadAs body.now) }
    ensures only { (reading : Result Action Refusal) → ReadAs body.now reading → AnswersOnly result reading }
    ensures count { IfOk result (λ action. 2 * length (elements_of action) ≤ length body.now) }
{
    read_once();
    read_body(alloc, body)
}
