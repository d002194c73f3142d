//! Writing bodies.

ghost use Rattle.std.specs.Prelude.{◌≡◌, ◌≤◌, ◌<◌, ◌++◌, ◌∷◌, [], List, ℕ, length, IfOk, OnOk};
ghost use Rattle.wl_elem.specs.Element.{body_limit};
ghost use Rattle.wl_elem.specs.ElementList.{Elems};
ghost use Rattle.wl_elem.specs.Encoding.{IsWithin};
ghost use Rattle.wl_elem.specs.Octets.{octets_of};
ghost use Rattle.wl_elem.specs.Fields.{field};
ghost use Rattle.wl_action.specs.Action.{statuses, front, IsAction, ActionOf, IsWritable, elements_of};

use crate::action::Action;
use crate::statuses::{LinkStatus, LinkStatuses};
use std::alloc::Global;
use wl_elem::{Bytes, Memory, encode_elements, put_u8, put_u16};

/// The links with their statuses.
fn put_statuses(out: &mut Bytes, list: &[LinkStatus]) -> Result<(), Memory>
    ensures { OnOk result (out.new ≡ out.old ++ statuses list.now) }
{
    'links: for status in list {
        out.push(status.link)?;
        put_u16(out, Some(status.status))?;
    }
    Ok(())
}

fn put_map_reply(out: &mut Bytes, token: u8, status: u16) -> Result<(), Memory>
    ensures { OnOk result (out.new ≡ out.old ++ (37 ∷ 1 ∷ token ∷ octets_of 2 status)) }
{
    out.extend(&[37, 1, token])?;
    put_u16(out, Some(status))
}

/// Category and action, and what stands behind them.
fn put_rest(out: &mut Bytes, category: u8, action: u8, rest: &Bytes) -> Result<(), Memory>
    ensures { OnOk result (out.new ≡ out.old ++ (category ∷ action ∷ rest.now)) }
{
    out.extend(&[category, action])?;
    out.extend(rest.as_slice())
}

fn put_eml(
    out: &mut Bytes,
    token: u8,
    control: u8,
    links: Option<u16>,
    update: Option<u8>,
    rest: &Bytes,
) -> Result<(), Memory>
    ensures { OnOk result (out.new ≡ out.old ++ (37 ∷ 6 ∷ token ∷ control ∷ (field 2 links ++ (field 1 update ++ rest.now)))) }
{
    out.extend(&[37, 6, token, control])?;
    put_u16(out, links)?;
    put_u8(out, update)?;
    out.extend(rest.as_slice())
}

fn put_reconf_reply(
    out: &mut Bytes,
    token: u8,
    list: &LinkStatuses,
    rest: &Bytes,
) -> Result<(), Memory>
    requires { length list.now < 256 }
    ensures { OnOk result (out.new ≡ out.old ++ (37 ∷ 12 ∷ token ∷ length list.now ∷ (statuses list.now ++ rest.now))) }
{
    let list = list.as_slice();
    out.extend(&[37, 12, token, list.len() as u8])?;
    put_statuses(out, list)?;
    out.extend(rest.as_slice())
}

/// Three octets, and three numbers of two octets behind them.
fn put_three(out: &mut Bytes, head: [u8; 3], a: u16, b: u16, c: u16) -> Result<(), Memory>
    ensures { OnOk result (out.new ≡ out.old ++ (head ++ (octets_of 2 a ++ (octets_of 2 b ++ octets_of 2 c)))) }
{
    out.extend(&head)?;
    put_u16(out, Some(a))?;
    put_u16(out, Some(b))?;
    put_u16(out, Some(c))
}

fn put_del_ba(out: &mut Bytes, params: u16, reason: u16, rest: &Bytes) -> Result<(), Memory>
    ensures { OnOk result (out.new ≡ out.old ++ (3 ∷ 2 ∷ (octets_of 2 params ++ (octets_of 2 reason ++ rest.now)))) }
{
    out.extend(&[3, 2])?;
    put_u16(out, Some(params))?;
    put_u16(out, Some(reason))?;
    out.extend(rest.as_slice())
}

/// The octets before the elements.
fn put_front(out: &mut Bytes, value: &Action) -> Result<(), Memory>
    requires { IsAction value.now }
    ensures { OnOk result (out.new ≡ out.old ++ front value.now) }
{
    match value {
        Action::MapAsk { token, .. } => out.extend(&[37, 0, *token]),
        Action::MapReply { token, status, .. } => put_map_reply(out, *token, *status),
        Action::MapTeardown { rest } => put_rest(out, 37, 2, rest),
        Action::Epcs { action, rest } => put_rest(out, 37, *action, rest),
        Action::Eml {
            token,
            control,
            links,
            update,
            rest,
        } => put_eml(out, *token, *control, *links, *update, rest),
        Action::ReconfAsk { token, .. } => out.extend(&[37, 11, *token]),
        Action::ReconfReply { token, list, rest } => put_reconf_reply(out, *token, list, rest),
        Action::AddBaAsk {
            token,
            params,
            timeout,
            start,
            ..
        } => put_three(out, [3, 0, *token], *params, *timeout, *start),
        Action::AddBaReply {
            token,
            status,
            params,
            timeout,
            ..
        } => put_three(out, [3, 1, *token], *status, *params, *timeout),
        Action::DelBa {
            params,
            reason,
            rest,
        } => put_del_ba(out, *params, *reason, rest),
    }
}

/// The octets of the elements, where the kind has them.
fn elements_text(alloc: Global, value: &Action) -> Result<Bytes, Memory>
    requires { IsWithin (elements_of value.now) body_limit }
    ensures { IfOk result (λ octets. Elems (elements_of value.now) octets) }
{
    match value.elements() {
        Some(list) => encode_elements(alloc, list),
        None => Ok(Bytes::new(alloc)),
    }
}

/// The one body of this value, which is well formed: `Action::well_formed` says true of it. `Memory`
/// where there was none for the body.
pub fn encode_action(alloc: Global, value: &Action) -> Result<Bytes, Memory>
    requires { IsWritable value.now }
    ensures { IfOk result (λ body. ActionOf value.now body) }
{
    wl_elem::spelled_once();
    let mut out = Bytes::new(alloc);
    put_front(&mut out, value)?;
    let elements = elements_text(alloc, value)?;
    out.extend(elements.as_slice())?;
    Ok(out)
}
