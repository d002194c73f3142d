//! Reading the commands that aren't loops.

ghost use Rattle.std.specs.Prelude.{◌≡◌};
ghost use Rattle.serde_json.specs.View.{view};
ghost use Rattle.wl_scene.specs.Answering.{Gives};
ghost use Rattle.wl_scene.specs.Commands.{alone_at, queue_of, send_of, reserve_of, put_of, deliver_of, again_of, alter_of, forge_of, inject_of, map_ask_of, ack_out_of, ack_in_of, bar_out_of, bar_in_of, power_of, give_up_of, named as named_as, any_named, command_of};

use crate::entries::entries;
use crate::fault::Stop;
use crate::field::{
    body, end, injected, key, lane, link, machine, nth, on, pn, position, sequence, tid,
};
use crate::member::{has_only, text};
use serde_json::Value;
use std::alloc::Global;
use wl_elem::EndId;
use wl_history::{Command, LinkStart, Plain};

/// The end of a command that has no other member.
fn alone(value: &Value) -> Option<EndId>
    ensures { result ≡ alone_at (view value.now) }
{
    if !has_only(value, &["do", "end"]) {
        return None;
    }
    end(value)
}

/// The command `queue`.
fn queue(alloc: Global, value: &Value) -> Result<Plain, Stop>
    ensures { Gives result (queue_of (view value.now)) }
{
    if !has_only(value, &["do", "end", "tid", "body"]) {
        return Err(Stop::Wrong);
    }
    let end = end(value).ok_or(Stop::Wrong)?;
    let tid = tid(value).ok_or(Stop::Wrong)?;
    let body = body(alloc, value)?;
    Ok(Plain::Do(Command::Queue { end, tid, body }))
}

/// The command `forge`.
fn forge(alloc: Global, links: &[LinkStart], value: &Value) -> Result<Plain, Stop>
    ensures { Gives result (forge_of links.now (view value.now)) }
{
    let names = ["do", "end", "link", "lane", "key", "pn", "number", "body"];
    if !has_only(value, &names) {
        return Err(Stop::Wrong);
    }
    let end = end(value).ok_or(Stop::Wrong)?;
    let link = link(links, value).ok_or(Stop::Wrong)?;
    let lane = lane(value).ok_or(Stop::Wrong)?;
    let key = key(value).ok_or(Stop::Wrong)?;
    let pn = pn(value).ok_or(Stop::Wrong)?;
    let number = sequence(value).ok_or(Stop::Wrong)?;
    let body = body(alloc, value)?;
    Ok(Plain::Do(Command::Forge {
        end,
        link,
        lane,
        key,
        pn,
        number,
        body,
    }))
}

/// The command `inject`.
fn inject(alloc: Global, links: &[LinkStart], value: &Value) -> Result<Plain, Stop>
    ensures { Gives result (inject_of links.now (view value.now)) }
{
    if !has_only(value, &["do", "end", "link", "hex"]) {
        return Err(Stop::Wrong);
    }
    let end = end(value).ok_or(Stop::Wrong)?;
    let link = link(links, value).ok_or(Stop::Wrong)?;
    let octets = injected(alloc, value)?;
    Ok(Plain::Do(Command::Inject { end, link, octets }))
}

/// The command `map_ask`.
fn map_ask(alloc: Global, value: &Value) -> Result<Plain, Stop>
    ensures { Gives result (map_ask_of (view value.now)) }
{
    if !has_only(value, &["do", "end", "entries"]) {
        return Err(Stop::Wrong);
    }
    let end = end(value).ok_or(Stop::Wrong)?;
    let entries = entries(alloc, value)?;
    Ok(Plain::Do(Command::MapAsk { end, entries }))
}

/// The command `send`.
fn send(links: &[LinkStart], value: &Value) -> Option<Plain>
    ensures { result ≡ send_of links.now (view value.now) }
{
    if !has_only(value, &["do", "end", "link", "lane"]) {
        return None;
    }
    let end = end(value)?;
    let link = link(links, value)?;
    let lane = lane(value)?;
    Some(Plain::Send { end, link, lane })
}

/// The command `reserve`.
fn reserve(value: &Value) -> Option<Plain>
    ensures { result ≡ reserve_of (view value.now) }
{
    if !has_only(value, &["do", "end", "lane"]) {
        return None;
    }
    let end = end(value)?;
    let lane = lane(value)?;
    Some(Plain::Do(Command::Reserve { end, lane }))
}

/// The command `put`.
fn put(links: &[LinkStart], value: &Value) -> Option<Plain>
    ensures { result ≡ put_of links.now (view value.now) }
{
    if !has_only(value, &["do", "end", "link"]) {
        return None;
    }
    let end = end(value)?;
    let link = link(links, value)?;
    Some(Plain::Do(Command::Put { end, link }))
}

/// The command `again`.
fn again(links: &[LinkStart], value: &Value) -> Option<Plain>
    ensures { result ≡ again_of links.now (view value.now) }
{
    if !has_only(value, &["do", "end", "link", "lane", "pos"]) {
        return None;
    }
    let end = end(value)?;
    let link = link(links, value)?;
    let lane = lane(value)?;
    let pos = position(value, "pos")?;
    Some(Plain::Do(Command::Again {
        end,
        link,
        lane,
        pos,
    }))
}

/// The command `deliver`.
fn deliver(links: &[LinkStart], value: &Value) -> Option<Plain>
    ensures { result ≡ deliver_of links.now (view value.now) }
{
    if !has_only(value, &["do", "end", "link", "nth"]) {
        return None;
    }
    let end = end(value)?;
    let link = link(links, value)?;
    let nth = nth(value)?;
    Some(Plain::Do(Command::Deliver { end, link, nth }))
}

/// The command `alter`.
fn alter(links: &[LinkStart], value: &Value) -> Option<Plain>
    ensures { result ≡ alter_of links.now (view value.now) }
{
    if !has_only(value, &["do", "end", "link", "nth", "number"]) {
        return None;
    }
    let end = end(value)?;
    let link = link(links, value)?;
    let nth = nth(value)?;
    let number = sequence(value)?;
    Some(Plain::Do(Command::Alter {
        end,
        link,
        nth,
        number,
    }))
}

/// The command `ack_out`.
fn ack_out(value: &Value) -> Option<Plain>
    ensures { result ≡ ack_out_of (view value.now) }
{
    if !has_only(value, &["do", "end", "lane"]) {
        return None;
    }
    let end = end(value)?;
    let lane = lane(value)?;
    Some(Plain::Do(Command::AckOut { end, lane }))
}

/// The command `ack_in`.
fn ack_in(value: &Value) -> Option<Plain>
    ensures { result ≡ ack_in_of (view value.now) }
{
    if !has_only(value, &["do", "end", "nth"]) {
        return None;
    }
    let end = end(value)?;
    let nth = nth(value)?;
    Some(Plain::Do(Command::AckIn { end, nth }))
}

/// The command `bar_out`.
fn bar_out(value: &Value) -> Option<Plain>
    ensures { result ≡ bar_out_of (view value.now) }
{
    if !has_only(value, &["do", "end", "lane", "to"]) {
        return None;
    }
    let end = end(value)?;
    let lane = lane(value)?;
    let to = position(value, "to")?;
    Some(Plain::Do(Command::BarOut { end, lane, to }))
}

/// The command `bar_in`.
fn bar_in(value: &Value) -> Option<Plain>
    ensures { result ≡ bar_in_of (view value.now) }
{
    if !has_only(value, &["do", "end", "nth"]) {
        return None;
    }
    let end = end(value)?;
    let nth = nth(value)?;
    Some(Plain::Do(Command::BarIn { end, nth }))
}

/// The command `power`.
fn power(links: &[LinkStart], value: &Value) -> Option<Plain>
    ensures { result ≡ power_of links.now (view value.now) }
{
    if !has_only(value, &["do", "end", "link", "on"]) {
        return None;
    }
    let end = end(value)?;
    let link = link(links, value)?;
    let on = on(value)?;
    Some(Plain::Do(Command::Power { end, link, on }))
}

/// The command `give_up`.
fn give_up(value: &Value) -> Option<Plain>
    ensures { result ≡ give_up_of (view value.now) }
{
    if !has_only(value, &["do", "end", "what"]) {
        return None;
    }
    let end = end(value)?;
    let what = machine(value)?;
    Some(Plain::Do(Command::GiveUp { end, what }))
}

/// A command by its name, one without octets and lists.
fn by_name(links: &[LinkStart], name: &str, value: &Value) -> Option<Plain>
    ensures { result ≡ named_as links.now name.now (view value.now) }
{
    match name {
        "send" => send(links, value),
        "reserve" => reserve(value),
        "book" => alone(value).map(|end| Plain::Do(Command::Book { end })),
        "put" => put(links, value),
        "again" => again(links, value),
        "deliver" => deliver(links, value),
        "alter" => alter(links, value),
        "ack_out" => ack_out(value),
        "ack_in" => ack_in(value),
        "bar_out" => bar_out(value),
        "bar_in" => bar_in(value),
        "install" => alone(value).map(|end| Plain::Do(Command::Install { end })),
        "turn" => alone(value).map(|end| Plain::Do(Command::Turn { end })),
        "power" => power(links, value),
        "map_teardown" => alone(value).map(|end| Plain::Do(Command::MapTeardown { end })),
        "give_up" => give_up(value),
        _ => None,
    }
}

/// A command by its name.
fn named(alloc: Global, links: &[LinkStart], name: &str, value: &Value) -> Result<Plain, Stop>
    ensures { Gives result (any_named links.now (view value.now) name.now) }
{
    match name {
        "queue" => queue(alloc, value),
        "forge" => forge(alloc, links, value),
        "inject" => inject(alloc, links, value),
        "map_ask" => map_ask(alloc, value),
        _ => match by_name(links, name, value) {
            Some(plain) => Ok(plain),
            None => Err(Stop::Wrong),
        },
    }
}

/// The command that a value is, over one of these links. A loop is none.
#[tactic(auto, unfolding(crate::specs::Commands::command_of))]
pub fn command(alloc: Global, links: &[LinkStart], value: &Value) -> Result<Plain, Stop>
    ensures { Gives result (command_of links.now (view value.now)) }
{
    match text(value, "do") {
        Some(name) => named(alloc, links, name, value),
        None => Err(Stop::Wrong),
    }
}
