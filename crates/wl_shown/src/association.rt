//! The shown texts of association bodies.

ghost use Rattle.std.specs.Prelude.{◌≡◌, ◌<◌, ◌≤◌, ◌^◌, ◌++◌, ℕ, List, flat_map, length, codes, Ok, OnOk, IfErr};
ghost use Rattle.std.specs.String.{string_bytes};
ghost use Rattle.wl_elem.specs.Element.{body_limit};
ghost use Rattle.wl_shown.specs.AssocText.{ask_text, reply_text, raw_items, link_fields, link_ask_text, asks_text, link_state_text, states_text};
ghost use Rattle.wl_shown.specs.Shown.{ItemsAs, AskAs, ReplyAs, IsFaultOf};
ghost use Rattle.wl_shown.specs.declared.item.ShownElements.TheVariants.{Basic};

use crate::item::{ShownElements, push_items};
use crate::show::{push_element, push_last, put_address, put_number};
use std::alloc::Global;
use wl_assoc::{
    AssocAsk, AssocReply, LinkAsk, LinkState, ask_profiles, decode_ask, decode_reply, links_of,
};
use wl_elem::{Elements, Fault, LinkId, Memory};

/// Adds elements as octets, each behind a space.
fn push_raw(alloc: Global, out: &mut String, list: &Elements) -> Result<(), Memory>
    ensures { OnOk result (string_bytes out.new ≡ string_bytes out.old ++ raw_items list.now) }
{
    'elements: for e in list.as_slice() {
        out.push_str(" ")?;
        push_element(alloc, out, e)?;
    }
    Ok(())
}

/// Adds a link that is asked for, without its elements.
fn push_link_fields(alloc: Global, out: &mut String, a: &LinkAsk) -> Result<(), Memory>
    ensures { OnOk result (string_bytes out.new ≡ string_bytes out.old ++ link_fields a.now) }
{
    put_number(out, " / link=", u64::from(a.link.get()))?;
    put_address(alloc, out, " mac=", a.mac)?;
    put_number(out, " capability=", u64::from(a.capability))
}

/// Adds a link that is asked for: its fields, and its elements.
#[tactic(auto, unfolding(crate::specs::AssocText::link_ask_text))]
fn push_link_ask(alloc: Global, out: &mut String, a: &LinkAsk) -> Result<(), Memory>
    ensures { OnOk result (string_bytes out.new ≡ string_bytes out.old ++ link_ask_text a.now) }
{
    push_link_fields(alloc, out, a)?;
    push_raw(alloc, out, &a.elements)
}

/// Adds what is asked for on each link.
fn push_asks(alloc: Global, out: &mut String, asks: &[LinkAsk]) -> Result<(), Memory>
    ensures { OnOk result (string_bytes out.new ≡ string_bytes out.old ++ asks_text asks.now) }
{
    'asks: for ask in asks {
        push_link_ask(alloc, out, ask)?;
    }
    Ok(())
}

/// Adds what a link was answered.
fn push_link_state(out: &mut String, s: &LinkState) -> Result<(), Memory>
    ensures { OnOk result (string_bytes out.new ≡ string_bytes out.old ++ link_state_text s.now) }
{
    put_number(out, " / link=", u64::from(s.link.get()))?;
    put_number(out, " capability=", u64::from(s.capability))?;
    put_number(out, " status=", u64::from(s.status))
}

/// Adds what each link was answered.
fn push_each_state(out: &mut String, states: &[LinkState]) -> Result<(), Memory>
    ensures { OnOk result (string_bytes out.new ≡ string_bytes out.old ++ flat_map link_state_text states.now) }
{
    'states: for state in states {
        push_link_state(out, state)?;
    }
    Ok(())
}

/// Adds what each link was answered but the first, which carries the frame.
fn push_states(out: &mut String, states: &[LinkState]) -> Result<(), Memory>
    ensures { OnOk result (string_bytes out.new ≡ string_bytes out.old ++ states_text states.now) }
{
    match states {
        [_, others @ ..] => push_each_state(out, others),
        [] => Ok(()),
    }
}

/// Adds a request's own fields.
fn push_ask(out: &mut String, ask: &AssocAsk) -> Result<(), Memory>
    ensures { OnOk result (string_bytes out.new ≡ string_bytes out.old ++ ask_text ask.now) }
{
    put_number(out, "assoc-ask(capability=", u64::from(ask.capability))?;
    push_last(out, ",listen=", u64::from(ask.listen))
}

/// Adds a response's own fields.
fn push_reply(out: &mut String, reply: &AssocReply) -> Result<(), Memory>
    ensures { OnOk result (string_bytes out.new ≡ string_bytes out.old ++ reply_text reply.now) }
{
    put_number(out, "assoc-reply(capability=", u64::from(reply.capability))?;
    put_number(out, ",status=", u64::from(reply.status))?;
    push_last(out, ",aid=", u64::from(reply.aid))
}

/// Makes `items` a request that was read, with what it asks for on each link; or answers the fault of
/// an element, and then `items` has no meaning.
fn put_read_ask(
    alloc: Global,
    items: &mut String,
    ask: &AssocAsk,
    asks: &[LinkAsk],
) -> Result<(), Fault>
    requires { length ask.now.elements < 2 ^ 32 }
    ensures shown { OnOk result ((text : List ℕ) × ItemsAs Basic 0 ask.now.elements (Ok text) × (string_bytes items.new ≡ codes " " ++ ask_text ask.now ++ text ++ asks_text asks.now)) }
    ensures refused { IfErr result (IsFaultOf (ItemsAs Basic 0 ask.now.elements)) }
{
    items.clear();
    items.push_str(" ")?;
    push_ask(items, ask)?;
    match push_items(alloc, items, ShownElements::Basic, &ask.elements) {
        Ok(()) => {}
        Err(fault) => return Err(fault),
    }
    push_asks(alloc, items, asks)?;
    Ok(())
}

/// Makes `items` a response that was read, with what each link was answered; or answers the fault of
/// an element, and then `items` has no meaning.
fn put_read_reply(
    alloc: Global,
    items: &mut String,
    reply: &AssocReply,
    states: &[LinkState],
) -> Result<(), Fault>
    requires { length reply.now.elements < 2 ^ 32 }
    ensures shown { OnOk result ((text : List ℕ) × ItemsAs Basic 0 reply.now.elements (Ok text) × (string_bytes items.new ≡ codes " " ++ reply_text reply.now ++ text ++ states_text states.now)) }
    ensures refused { IfErr result (IsFaultOf (ItemsAs Basic 0 reply.now.elements)) }
{
    items.clear();
    items.push_str(" ")?;
    push_reply(items, reply)?;
    match push_items(alloc, items, ShownElements::Basic, &reply.elements) {
        Ok(()) => {}
        Err(fault) => return Err(fault),
    }
    push_states(items, states)?;
    Ok(())
}

/// Makes `items` the association request that the octets are, with what it asks for on each link; or
/// answers their fault, and then `items` has no meaning.
pub fn put_ask(alloc: Global, items: &mut String, octets: &[u8]) -> Result<(), Fault>
    requires { length octets.now ≤ body_limit }
    ensures shown { OnOk result (AskAs octets.now (Ok (string_bytes items.new))) }
    ensures refused { IfErr result (IsFaultOf (AskAs octets.now)) }
{
    let ask = match decode_ask(alloc, octets) {
        Ok(ask) => ask,
        Err(fault) => return Err(fault),
    };
    match ask_profiles(alloc, &ask) {
        Ok(asks) => put_read_ask(alloc, items, &ask, asks.as_slice()),
        Err(fault) => Err(fault),
    }
}

/// Makes `items` the association response that the octets are, with what each link was answered; or
/// answers their fault, and then `items` has no meaning.
pub fn put_reply(alloc: Global, items: &mut String, octets: &[u8]) -> Result<(), Fault>
    requires { length octets.now ≤ body_limit }
    ensures shown { OnOk result (ReplyAs octets.now (Ok (string_bytes items.new))) }
    ensures refused { IfErr result (IsFaultOf (ReplyAs octets.now)) }
{
    let reply = match decode_reply(alloc, octets) {
        Ok(reply) => reply,
        Err(fault) => return Err(fault),
    };
    // The line doesn't tell the link that carries the frame: any stands for it, and isn't shown.
    let Some(on) = LinkId::new(0) else {
        unreachable!();
    };
    match links_of(alloc, &reply, on) {
        Ok(states) => put_read_reply(alloc, items, &reply, states.as_slice()),
        Err(fault) => Err(fault),
    }
}
