//! Reading a scenario.

ghost use Rattle.std.specs.Prelude.{◌≡◌, ℕ, List, Result, IfOk, IfErr};
ghost use Rattle.serde_json.specs.View.{view, items_view};
ghost use Rattle.wl_scene.specs.declared.scenario.Scenario.{Scenario};
ghost use Rattle.wl_scene.specs.Answering.{Answers, AnswersOnly, IsUnread};
ghost use Rattle.wl_scene.specs.Scene.{first_by, denies as does_deny, end_start, start_of, with_commands, scene_of, IsJson, SceneOf};
ghost use Rattle.wl_scene.specs.Sound.{IsSound, IsSoundHead};

use crate::fault::{SceneFault, Stop};
use crate::first::{First, Firsts};
use crate::head::{Head, command_list, read_head};
use crate::items::{are_few, items};
use crate::policy::Denials;
use crate::scenario::Scenario;
use serde_json::Value;
use std::alloc::Global;
use wl_elem::{EndId, Memory};
use wl_history::{EndStart, LinkStarts, Start};

/// What an end sends first.
fn first_of(end: EndId, firsts: &Firsts) -> First
    ensures { result ≡ first_by end firsts.now }
{
    match end {
        EndId::Ap => firsts.ap,
        EndId::Sta => firsts.sta,
    }
}

/// Whether an end denies each mapping.
fn denies(end: EndId, denials: &Denials) -> bool
    ensures { result ≡ does_deny end denials.now }
{
    match end {
        EndId::Ap => denials.ap,
        EndId::Sta => denials.sta,
    }
}

/// What an end starts with.
fn start_of_end(alloc: Global, end: EndId, head: &Head) -> Result<EndStart, Memory>
    ensures { IfOk result (λ start. start ≡ end_start end head.now) }
{
    let key = head.key;
    let first = first_of(end, &head.firsts);
    let newest = head.firsts.ap.key.max(head.firsts.sta.key);
    let links = LinkStarts::from_slice(alloc, head.links.as_slice())?;
    Ok(EndStart {
        end,
        ap: head.ap,
        sta: head.sta,
        key,
        links,
        associated: head.associated,
        window: head.window,
        accept: head.accept,
        deny: denies(end, &head.denials),
        first_key: first.key,
        first_pn: first.pn,
        newest,
    })
}

/// What both ends start with.
fn start(alloc: Global, head: &Head) -> Result<Start, Memory>
    ensures { IfOk result (λ start. start ≡ start_of head.now) }
{
    let ap = start_of_end(alloc, EndId::Ap, head)?;
    let sta = start_of_end(alloc, EndId::Sta, head)?;
    Ok(Start { ap, sta })
}

/// The scenario of a head and its commands.
fn with_head(alloc: Global, head: &Head, values: &[Value]) -> Result<Scenario, SceneFault>
    ensures only { AnswersOnly result (with_commands head.now (items_view values.now)) }
    ensures sound { IsSoundHead head.now → IfOk result IsSound }
{
    if !are_few(values) {
        return Err(SceneFault::Refused { place: 0 });
    }
    let before = match items(alloc, head.links.as_slice(), values) {
        Ok(before) => before,
        Err(fault) => return Err(fault),
    };
    match start(alloc, head) {
        Ok(start) => Ok(Scenario { start, before }),
        Err(_) => Err(SceneFault::Memory),
    }
}

/// The scenario that a value is.
fn scenario_of(alloc: Global, value: &Value) -> Result<Scenario, SceneFault>
    ensures only { AnswersOnly result (scene_of (view value.now)) }
    ensures sound { IfOk result IsSound }
{
    let head = match read_head(alloc, value) {
        Ok(head) => head,
        Err(Stop::Wrong) => return Err(SceneFault::Refused { place: 0 }),
        Err(Stop::NoMemory) => return Err(SceneFault::Memory),
    };
    match command_list(value) {
        Some(values) => with_head(alloc, &head, values),
        None => Err(SceneFault::Refused { place: 0 }),
    }
}

/// The value of a text of JSON. Refused at 0 where it isn't one.
fn value_of(alloc: Global, text: &[u8]) -> Result<Value, SceneFault>
    ensures read { IfOk result (λ v. IsJson text.now (view v)) }
    ensures refused { IfErr result (IsUnread text.now) }
{
    match Value::from_slice(alloc, text) {
        Ok(value) => Ok(value),
        Err(error) => {
            if error.is_memory() {
                return Err(SceneFault::Memory);
            }
            Err(SceneFault::Refused { place: 0 })
        }
    }
}

/// Reads a scenario.
///
/// Ok exactly where the text is one: UTF-8 and JSON, an object with the members `version` (1), `ap`
/// and `sta` (different addresses of 12 hex digits), `key` (32 hex digits), `links` (1 to 4 objects of
/// `id`, below 15 and ascending, `ap` and `sta`, no two addresses of an end the same) and, where they
/// are there, `associated` (else true), `window` (1 to 256, else 64), `accept` (ascending IDs of the
/// links, else all), `deny` (a list of `ap` and `sta`, none twice, else empty), `first` (objects of
/// `end`, `key` and `pn`, else key 0 and packet number 1) and `before` (the commands). Else Refused with
/// the place: 0 where it isn't JSON, where a member outside the commands is wrong and where the commands
/// count as more than 65,536, loops expanded; else the number of the first wrong command, counted from
/// 1, a loop before the commands in its body and each of these once. `Memory` where there was none; it
/// says nothing of the text.
pub fn read_scenario(alloc: Global, text: &[u8]) -> Result<Scenario, SceneFault>
    ensures read { Answers result (SceneOf text.now) }
    ensures only { (reading : Result Scenario ℕ) → SceneOf text.now reading → AnswersOnly result reading }
    ensures sound { IfOk result IsSound }
{
    let value = match value_of(alloc, text) {
        Ok(value) => value,
        Err(fault) => return Err(fault),
    };
    scenario_of(alloc, &value)
}
