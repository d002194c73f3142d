//! Reading the commands and the loops over them.

ghost use Rattle.std.specs.Prelude.{◌≡◌, ◌≤◌, ◌*◌, suc, min, nat_le};
ghost use Rattle.serde_json.specs.View.{view, items_view};
ghost use Rattle.wl_scene.specs.Answering.{AnswersOnly};
ghost use Rattle.wl_scene.specs.Members.{in_range};
ghost use Rattle.wl_scene.specs.Items.{times_at, plains_of, loop_of, item_of, places_of, items_of, count_of, count_all};
ghost use Rattle.wl_scene.specs.Scene.{command_limit};

use crate::commands::command;
use crate::fault::{SceneFault, Stop};
use crate::member::{has_only, has_text, list, whole};
use serde_json::Value;
use std::alloc::Global;
use wl_history::{Item, LinkStart, Plains, Script};

/// A number from 1 to 65,536.
fn times_of(n: u64) -> Option<u32>
    ensures { result ≡ in_range 1 65536 n }
{
    if n == 0 || n > 65_536 {
        return None;
    }
    Some(n as u32)
}

/// The member `times`, 1 to 65,536.
fn times(value: &Value) -> Option<u32>
    ensures { result ≡ times_at (view value.now) }
{
    match whole(value, "times") {
        Some(n) => times_of(n),
        None => None,
    }
}

/// The commands of a loop's body, in order. Refused with the number of the first that is none, or is a
/// loop, counted from 1.
fn plains(alloc: Global, links: &[LinkStart], values: &[Value]) -> Result<Plains, SceneFault>
    ensures { AnswersOnly result (plains_of links.now (items_view values.now)) }
{
    let mut body = Plains::new(alloc);
    'commands: for (i, value) in values.iter().enumerate() {
        let plain = match command(alloc, links, value) {
            Ok(plain) => plain,
            Err(Stop::Wrong) => return Err(SceneFault::Refused {
                place: i as u64 + 1,
            }),
            Err(Stop::NoMemory) => return Err(SceneFault::Memory),
        };
        match body.push(plain) {
            Ok(()) => {}
            Err(_) => return Err(SceneFault::Memory),
        }
    }
    Ok(body)
}

/// The loop that a value is. Refused at 1 where it is wrong itself, else at one above the number of the
/// first wrong command in its body.
#[tactic(auto, unfolding(crate::specs::Items::loop_of))]
fn repeat(alloc: Global, links: &[LinkStart], value: &Value) -> Result<Item, SceneFault>
    ensures { AnswersOnly result (loop_of links.now (view value.now)) }
{
    if !has_only(value, &["do", "times", "body"]) {
        return Err(SceneFault::Refused { place: 1 });
    }
    let times = match times(value) {
        Some(times) => times,
        None => return Err(SceneFault::Refused { place: 1 }),
    };
    let values = match list(value, "body") {
        Some(values) => values,
        None => return Err(SceneFault::Refused { place: 1 }),
    };
    match plains(alloc, links, values) {
        Ok(body) => Ok(Item::Loop { times, body }),
        Err(SceneFault::Refused { place }) => Err(SceneFault::Refused { place: place + 1 }),
        Err(SceneFault::Memory) => Err(SceneFault::Memory),
    }
}

/// The command or loop that a value is. Refused at the place in it that is wrong, 1 for itself.
fn item(alloc: Global, links: &[LinkStart], value: &Value) -> Result<Item, SceneFault>
    ensures { AnswersOnly result (item_of links.now (view value.now)) }
{
    if has_text(value, "do", "loop") {
        return repeat(alloc, links, value);
    }
    match command(alloc, links, value) {
        Ok(plain) => Ok(Item::Once(plain)),
        Err(Stop::Wrong) => Err(SceneFault::Refused { place: 1 }),
        Err(Stop::NoMemory) => Err(SceneFault::Memory),
    }
}

/// How many places a command has: one, and one for each command in a loop's body.
fn places(item: &Item) -> u64
    ensures { result ≡ places_of item.now }
{
    match item {
        Item::Once(_) => 1,
        Item::Loop { body, .. } => body.as_slice().len() as u64 + 1,
    }
}

/// The commands, in order. Refused with the place of the first that is wrong, counted from 1, a loop
/// before the commands in its body and each of these once.
///
/// Condition: they count as at most 65,536.
pub fn items(alloc: Global, links: &[LinkStart], values: &[Value]) -> Result<Script, SceneFault>
    requires { count_all (items_view values.now) ≤ command_limit }
    ensures { AnswersOnly result (items_of links.now (items_view values.now)) }
{
    let mut script = Script::new(alloc);
    let mut before: u64 = 0;
    'commands: for value in values {
        let item = match item(alloc, links, value) {
            Ok(item) => item,
            Err(SceneFault::Refused { place }) => return Err(SceneFault::Refused {
                place: before + place,
            }),
            Err(SceneFault::Memory) => return Err(SceneFault::Memory),
        };
        before += places(&item);
        match script.push(item) {
            Ok(()) => {}
            Err(_) => return Err(SceneFault::Memory),
        }
    }
    Ok(script)
}

/// So many times so many, up to 65,537.
fn product(times: u32, count: usize) -> u64
    ensures { result ≡ min (times * count) 65537 }
{
    u64::from(times).saturating_mul(count as u64).min(65_537)
}

/// How many commands a value counts as, up to 65,537.
#[tactic(auto, unfolding(crate::specs::Items::count_of))]
fn counted(value: &Value) -> u64
    ensures { result ≡ min (count_of (view value.now)) 65537 }
{
    if !has_text(value, "do", "loop") {
        return 1;
    }
    let times = match times(value) {
        Some(times) => times,
        None => return 1,
    };
    match list(value, "body") {
        Some(values) => product(times, values.len()),
        None => 1,
    }
}

/// Whether the commands are at most 65,536, loops expanded.
pub fn are_few(values: &[Value]) -> bool
    ensures { result ≡ nat_le (count_all (items_view values.now)) command_limit }
{
    let mut count: u64 = 0;
    'commands: for value in values {
        count += counted(value);
        if count > 65_536 {
            return false;
        }
    }
    true
}
