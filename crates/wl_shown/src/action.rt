//! The shown texts of action bodies.

ghost use Rattle.std.specs.Prelude.{◌≡◌, ◌≤◌, ◌<◌, ◌^◌, ◌++◌, [], length, Ok, OnOk, IfErr, codes};
ghost use Rattle.std.specs.String.{string_bytes};
ghost use Rattle.wl_elem.specs.Element.{body_limit};
ghost use Rattle.wl_action.specs.Action.{elements_of};
ghost use Rattle.wl_shown.specs.ActionText.{status_text, more_statuses, statuses_text, map_ask_text, map_reply_text, teardown_text, epcs_text, eml_text, reconf_ask_text, reconf_reply_text, addba_ask_text, addba_reply_text, delba_text, action_text, decoded_in};
ghost use Rattle.wl_shown.specs.Shown.{ItemsAs, ActionAs, IsFaultOf, AddsText};

use crate::item::{ShownElements, push_items};
use crate::show::{push_last, push_number, push_rest, put_number, put_optional};
use std::alloc::Global;
use wl_action::{Action, LinkStatus, LinkStatuses, decode_action};
use wl_elem::{Fault, Known, Memory};

/// Adds a link and its status.
fn push_status(out: &mut String, s: &LinkStatus) -> Result<(), Memory>
    ensures { OnOk result (string_bytes out.new ≡ string_bytes out.old ++ status_text s.now) }
{
    push_number(out, u64::from(s.link))?;
    put_number(out, ":", u64::from(s.status))
}

/// Adds further links and their statuses, each behind a `+`.
fn push_more_statuses(out: &mut String, list: &[LinkStatus]) -> Result<(), Memory>
    ensures { OnOk result (string_bytes out.new ≡ string_bytes out.old ++ more_statuses list.now) }
{
    'statuses: for status in list {
        out.push_str("+")?;
        push_status(out, status)?;
    }
    Ok(())
}

/// Adds links and their statuses, joined by `+`, or `-` where there is none.
fn push_statuses(out: &mut String, list: &[LinkStatus]) -> Result<(), Memory>
    ensures { OnOk result (string_bytes out.new ≡ string_bytes out.old ++ statuses_text list.now) }
{
    match list {
        [first, more @ ..] => {
            push_status(out, first)?;
            push_more_statuses(out, more)
        }
        [] => {
            out.push_str("-")?;
            Ok(())
        }
    }
}

/// Adds the statuses of a reply to a reconfiguration request, behind their name.
fn push_list(out: &mut String, list: &LinkStatuses) -> Result<(), Memory>
    ensures { OnOk result (string_bytes out.new ≡ string_bytes out.old ++ (codes ",list=" ++ statuses_text list.now)) }
{
    out.push_str(",list=")?;
    push_statuses(out, list.as_slice())
}

/// Adds the fields of a mapping request.
fn push_map_ask(out: &mut String, token: u8) -> Result<(), Memory>
    ensures { OnOk result (string_bytes out.new ≡ string_bytes out.old ++ map_ask_text token) }
{
    push_last(out, "map-ask(token=", u64::from(token))
}

/// Adds the fields of a mapping reply.
fn push_map_reply(out: &mut String, token: u8, status: u16) -> Result<(), Memory>
    ensures { OnOk result (string_bytes out.new ≡ string_bytes out.old ++ map_reply_text token status) }
{
    put_number(out, "map-reply(token=", u64::from(token))?;
    push_last(out, ",status=", u64::from(status))
}

/// Adds a mapping teardown.
fn push_teardown(alloc: Global, out: &mut String, rest: &[u8]) -> Result<(), Memory>
    ensures { OnOk result (string_bytes out.new ≡ string_bytes out.old ++ teardown_text rest.now) }
{
    push_rest(alloc, out, "map-teardown(rest=", rest)
}

/// Adds an EPCS body.
fn push_epcs(alloc: Global, out: &mut String, action: u8, rest: &[u8]) -> Result<(), Memory>
    ensures { OnOk result (string_bytes out.new ≡ string_bytes out.old ++ epcs_text action rest.now) }
{
    put_number(out, "epcs(action=", u64::from(action))?;
    push_rest(alloc, out, ",rest=", rest)
}

/// The link bitmap of an EML notice, as wide as a shown number.
fn wide_links(links: Option<u16>) -> Option<u64>
    ensures { result ≡ links }
{
    links.map(u64::from)
}

/// The parameter update of an EML notice, as wide as a shown number.
fn wide_update(update: Option<u8>) -> Option<u64>
    ensures { result ≡ update }
{
    update.map(u64::from)
}

/// Adds an EML notice.
fn push_eml(
    alloc: Global,
    out: &mut String,
    token: u8,
    control: u8,
    links: Option<u16>,
    update: Option<u8>,
    rest: &[u8],
) -> Result<(), Memory>
    ensures { OnOk result (string_bytes out.new ≡ string_bytes out.old ++ eml_text token control links update rest.now) }
{
    put_number(out, "eml(token=", u64::from(token))?;
    put_number(out, ",control=", u64::from(control))?;
    put_optional(out, ",links=", wide_links(links))?;
    put_optional(out, ",update=", wide_update(update))?;
    push_rest(alloc, out, ",rest=", rest)
}

/// Adds the fields of a reconfiguration request.
fn push_reconf_ask(out: &mut String, token: u8) -> Result<(), Memory>
    ensures { OnOk result (string_bytes out.new ≡ string_bytes out.old ++ reconf_ask_text token) }
{
    push_last(out, "reconf-ask(token=", u64::from(token))
}

/// Adds a reply to a reconfiguration request.
fn push_reconf_reply(
    alloc: Global,
    out: &mut String,
    token: u8,
    list: &LinkStatuses,
    rest: &[u8],
) -> Result<(), Memory>
    ensures { OnOk result (string_bytes out.new ≡ string_bytes out.old ++ reconf_reply_text token list.now rest.now) }
{
    put_number(out, "reconf-reply(token=", u64::from(token))?;
    push_list(out, list)?;
    push_rest(alloc, out, ",rest=", rest)
}

/// Adds the fields of an ADDBA request.
fn push_addba_ask(
    out: &mut String,
    token: u8,
    params: u16,
    timeout: u16,
    start: u16,
) -> Result<(), Memory>
    ensures { OnOk result (string_bytes out.new ≡ string_bytes out.old ++ addba_ask_text token params timeout start) }
{
    put_number(out, "addba-ask(token=", u64::from(token))?;
    put_number(out, ",params=", u64::from(params))?;
    put_number(out, ",timeout=", u64::from(timeout))?;
    push_last(out, ",start=", u64::from(start))
}

/// Adds the fields of an ADDBA response.
fn push_addba_reply(
    out: &mut String,
    token: u8,
    status: u16,
    params: u16,
    timeout: u16,
) -> Result<(), Memory>
    ensures { OnOk result (string_bytes out.new ≡ string_bytes out.old ++ addba_reply_text token status params timeout) }
{
    put_number(out, "addba-reply(token=", u64::from(token))?;
    put_number(out, ",status=", u64::from(status))?;
    put_number(out, ",params=", u64::from(params))?;
    push_last(out, ",timeout=", u64::from(timeout))
}

/// Adds a DELBA.
fn push_delba(
    alloc: Global,
    out: &mut String,
    params: u16,
    reason: u16,
    rest: &[u8],
) -> Result<(), Memory>
    ensures { OnOk result (string_bytes out.new ≡ string_bytes out.old ++ delba_text params reason rest.now) }
{
    put_number(out, "delba(params=", u64::from(params))?;
    put_number(out, ",reason=", u64::from(reason))?;
    push_rest(alloc, out, ",rest=", rest)
}

/// Adds a body's own fields.
fn push_action(alloc: Global, out: &mut String, action: &Action) -> Result<(), Memory>
    ensures { OnOk result (string_bytes out.new ≡ string_bytes out.old ++ action_text action.now) }
{
    match action {
        Action::MapAsk { token, .. } => push_map_ask(out, *token),
        Action::MapReply { token, status, .. } => push_map_reply(out, *token, *status),
        Action::MapTeardown { rest } => push_teardown(alloc, out, rest.as_slice()),
        Action::Epcs { action, rest } => push_epcs(alloc, out, *action, rest.as_slice()),
        Action::Eml {
            token,
            control,
            links,
            update,
            rest,
        } => push_eml(
            alloc,
            out,
            *token,
            *control,
            *links,
            *update,
            rest.as_slice(),
        ),
        Action::ReconfAsk { token, .. } => push_reconf_ask(out, *token),
        Action::ReconfReply { token, list, rest } => {
            push_reconf_reply(alloc, out, *token, list, rest.as_slice())
        }
        Action::AddBaAsk {
            token,
            params,
            timeout,
            start,
            ..
        } => push_addba_ask(out, *token, *params, *timeout, *start),
        Action::AddBaReply {
            token,
            status,
            params,
            timeout,
            ..
        } => push_addba_reply(out, *token, *status, *params, *timeout),
        Action::DelBa {
            params,
            reason,
            rest,
        } => push_delba(alloc, out, *params, *reason, rest.as_slice()),
    }
}

/// Which elements of a body are shown as their values.
fn decoded_in(action: &Action) -> ShownElements
    ensures { result ≡ decoded_in action.now }
{
    match action {
        Action::MapAsk { .. } | Action::MapReply { .. } => ShownElements::Only(
            Known::TidToLinkMapping,
        ),
        Action::ReconfAsk { .. } => ShownElements::Only(Known::MultiLink),
        Action::MapTeardown { .. }
        | Action::Epcs { .. }
        | Action::Eml { .. }
        | Action::ReconfReply { .. }
        | Action::AddBaAsk { .. }
        | Action::AddBaReply { .. }
        | Action::DelBa { .. } => ShownElements::Nothing,
    }
}

/// Adds the elements of a body, those that are decoded as their values.
fn push_elements(alloc: Global, out: &mut String, action: &Action) -> Result<(), Fault>
    requires { length (elements_of action.now) < 2 ^ 32 }
    ensures shown { OnOk result (AddsText (ItemsAs (decoded_in action.now) 0 (elements_of action.now)) (string_bytes out.old) (string_bytes out.new)) }
    ensures refused { IfErr result (IsFaultOf (ItemsAs (decoded_in action.now) 0 (elements_of action.now))) }
{
    match action.elements() {
        Some(list) => push_items(alloc, out, decoded_in(action), list),
        None => Ok(()),
    }
}

/// Makes `items` an action body that was read; or answers the fault of an element, and then `items` has
/// no meaning.
fn put_read(alloc: Global, items: &mut String, action: &Action) -> Result<(), Fault>
    requires { length (elements_of action.now) < 2 ^ 32 }
    ensures shown { OnOk result (AddsText (ItemsAs (decoded_in action.now) 0 (elements_of action.now)) (codes " " ++ action_text action.now) (string_bytes items.new)) }
    ensures refused { IfErr result (IsFaultOf (ItemsAs (decoded_in action.now) 0 (elements_of action.now))) }
{
    items.clear();
    items.push_str(" ")?;
    push_action(alloc, items, action)?;
    push_elements(alloc, items, action)
}

/// Makes `items` the action body that the octets are; or answers their fault, and then `items` has no
/// meaning.
pub fn put_action(alloc: Global, items: &mut String, octets: &[u8]) -> Result<(), Fault>
    requires { length octets.now ≤ body_limit }
    ensures shown { OnOk result (ActionAs octets.now (Ok (string_bytes items.new))) }
    ensures refused { IfErr result (IsFaultOf (ActionAs octets.now)) }
{
    match decode_action(alloc, octets) {
        Ok(action) => put_read(alloc, items, &action),
        Err(fault) => Err(fault),
    }
}
