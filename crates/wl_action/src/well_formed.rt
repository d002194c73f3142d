//! The tests of a value.

ghost use Rattle.std.specs.Prelude.{◌≡◌, ◌↔◌, ◌+◌, ◌*◌, ◌≤◌, ◌<◌, ◌^◌, true, length, IsTrue, IfOk};
ghost use Rattle.std.specs.List.{AllByRecursion};
ghost use Rattle.wl_action.specs.Action.{IsWritable, IsLinkStatus, elements_of, front, statuses};
ghost use Rattle.wl_action.specs.Writing.{kind_of, IsTyped, EmlFits, FieldsFit, AreFit, HasRoom};

use crate::action::Action;
use crate::code::Code;
use crate::list::{first_refusal, right_numbers};
use crate::statuses::LinkStatus;
use std::alloc::Global;
use wl_elem::{BODY_LIMIT, Elements, Memory, encoded_len, u8_len, u16_len};

/// The kind of a value.
fn code_in(value: &Action) -> Code
    ensures { result ≡ kind_of value.now }
{
    match value {
        Action::MapAsk { .. } => Code::MapAsk,
        Action::MapReply { .. } => Code::MapReply,
        Action::MapTeardown { .. } => Code::MapTeardown,
        Action::Epcs { .. } => Code::Epcs,
        Action::Eml { .. } => Code::Eml,
        Action::ReconfAsk { .. } => Code::ReconfAsk,
        Action::ReconfReply { .. } => Code::ReconfReply,
        Action::AddBaAsk { .. } => Code::AddBaAsk,
        Action::AddBaReply { .. } => Code::AddBaReply,
        Action::DelBa { .. } => Code::DelBa,
    }
}

/// Whether EMLMR is clear, and the optional fields are there as the control says.
fn eml_fits(control: u8, links: Option<u16>, update: Option<u8>) -> bool
    ensures { IsTrue result ↔ EmlFits control links update }
{
    control / 2 % 2 == 0
        && links.is_some() == (control % 2 == 1)
        && update.is_some() == (control / 4 % 2 == 1)
}

/// Whether the fields are those of a value.
fn fields_fit(value: &Action) -> bool
    ensures { IsTrue result ↔ FieldsFit value.now }
{
    match value {
        Action::Epcs { action, .. } => *action >= 3 && *action <= 5,
        Action::Eml {
            control,
            links,
            update,
            ..
        } => eml_fits(*control, *links, *update),
        Action::ReconfReply { list, .. } => list.as_slice().len() < 256,
        _ => true,
    }
}

/// How many octets the links with their statuses take.
fn statuses_len(list: &[LinkStatus]) -> usize
    requires { length list.now < 256 }
    ensures len { result ≡ length (statuses list.now) }
    ensures short { result ≤ 3 * length list.now }
    ensures typed { AllByRecursion IsLinkStatus list.now }
{
    let mut len = 0;
    'links: for s in list {
        len += u8_len(Some(s.link)) + u16_len(Some(s.status));
    }
    len
}

/// How many octets there are before the elements.
fn front_len(value: &Action) -> usize
    requires { FieldsFit value.now }
    ensures len { result ≡ length (front value.now) }
    ensures typed { IsTyped value.now }
{
    match value {
        Action::MapAsk { token, .. } | Action::ReconfAsk { token, .. } => {
            2 + u8_len(Some(*token))
        }
        Action::MapReply { token, status, .. } => {
            2 + u8_len(Some(*token)) + u16_len(Some(*status))
        }
        Action::MapTeardown { rest } | Action::Epcs { rest, .. } => 2 + rest.as_slice().len(),
        Action::Eml {
            token,
            control,
            links,
            update,
            rest,
        } => {
            2 + u8_len(Some(*token))
                + u8_len(Some(*control))
                + u16_len(*links)
                + u8_len(*update)
                + rest.as_slice().len()
        }
        Action::ReconfReply { token, list, rest } => {
            3 + u8_len(Some(*token)) + statuses_len(list.as_slice()) + rest.as_slice().len()
        }
        Action::AddBaAsk {
            token,
            params,
            timeout,
            start,
            ..
        } => {
            2 + u8_len(Some(*token))
                + u16_len(Some(*params))
                + u16_len(Some(*timeout))
                + u16_len(Some(*start))
        }
        Action::AddBaReply {
            token,
            status,
            params,
            timeout,
            ..
        } => {
            2 + u8_len(Some(*token))
                + u16_len(Some(*status))
                + u16_len(Some(*params))
                + u16_len(Some(*timeout))
        }
        Action::DelBa {
            params,
            reason,
            rest,
        } => 2 + u16_len(Some(*params)) + u16_len(Some(*reason)) + rest.as_slice().len(),
    }
}

/// Whether the elements behind so many octets are within the limit.
fn has_room(before: usize, list: &Elements) -> bool
    requires { length list.now < 2 ^ 32 }
    ensures { IsTrue result ↔ HasRoom before list.now }
{
    wl_elem::spelled();
    let len = encoded_len(list);
    before <= BODY_LIMIT && len <= (BODY_LIMIT - before) as u64
}

/// Whether there are as many of the elements as there may be, and each that is to be decoded has a
/// value.
fn are_fit(alloc: Global, code: Code, list: &Elements) -> Result<bool, Memory>
    requires { length list.now < 2 ^ 32 }
    ensures { IfOk result (λ answer. IsTrue answer ↔ AreFit code list.now) }
{
    wl_elem::read_once();
    wl_ttlm::read_once();
    wl_mle::read_once();
    if !right_numbers(code, list) {
        return Ok(false);
    }
    let refusal = first_refusal(alloc, code, list)?;
    Ok(refusal.is_none())
}

/// Whether the elements are fit, where there are so many octets before them.
fn list_fits(alloc: Global, code: Code, before: usize, list: &Elements) -> Result<bool, Memory>
    requires { length list.now < 2 ^ 32 }
    ensures { IfOk result (λ answer. IsTrue answer ↔ (AreFit code list.now × HasRoom before list.now)) }
{
    if !has_room(before, list) {
        return Ok(false);
    }
    are_fit(alloc, code, list)
}

/// Whether some body has this value.
pub fn is_writable(alloc: Global, value: &Action) -> Result<bool, Memory>
    requires { length (elements_of value.now) < 2 ^ 32 }
    ensures { IfOk result (λ answer. IsTrue answer ↔ IsWritable value.now) }
{
    if !fields_fit(value) {
        return Ok(false);
    }
    match value.elements() {
        Some(list) => list_fits(alloc, code_in(value), front_len(value), list),
        None => Ok(front_len(value) <= BODY_LIMIT),
    }
}
