//! The members of a scenario outside its commands.

ghost use Rattle.std.specs.Prelude.{◌≡◌, ◌≢◌, ◌≤◌, ◌&&◌, codes, length, option_map, IfSome, IfOk, IsOk};
ghost use Rattle.serde_json.specs.View.{view, items_view};
ghost use Rattle.wl_scene.specs.Answering.{Gives};
ghost use Rattle.wl_scene.specs.Members.{in_range, has_only as only_has, has_number as has_this_number};
ghost use Rattle.wl_scene.specs.Head.{associated_at, window_at, head_names, apart, head_of};
ghost use Rattle.wl_scene.specs.Scene.{commands_of};
ghost use Rattle.wl_scene.specs.Sound.{IsSoundHead};

use crate::fault::Stop;
use crate::first::{Firsts, read_firsts};
use crate::links::links;
use crate::member::{address, has_number, has_only, key};
use crate::policy::{Denials, accept, read_denials};
use serde_json::Value;
use std::alloc::Global;
use wl_elem::{LinkSet, MacAddr};
use wl_history::LinkStarts;

/// What a scenario says outside its commands.
#[derive(Debug, Drop)]
pub struct Head {
    /// The AP MLD's address.
    pub ap: MacAddr,
    /// The station MLD's address, another one.
    pub sta: MacAddr,
    /// The base of all keys.
    pub key: [u8; 16],
    /// The links, 1 to 4.
    pub links: LinkStarts,
    /// Whether all links are set up at the start, or none.
    pub associated: bool,
    /// The size of the windows, 1 to 256.
    pub window: u16,
    /// The links that the AP accepts.
    pub accept: LinkSet,
    /// Which ends deny each mapping.
    pub denials: Denials,
    /// What both ends send first.
    pub firsts: Firsts,
}

/// Whether the object has no other members, and version 1.
fn has_version(value: &Value) -> bool
    ensures { result ≡ (only_has head_names (view value.now) && has_this_number (codes "version") 1 (view value.now)) }
{
    has_only(
        value,
        &[
            "version",
            "ap",
            "sta",
            "key",
            "links",
            "associated",
            "window",
            "accept",
            "deny",
            "first",
            "before",
        ],
    ) && has_number(value, "version", 1)
}

/// The member `associated`; true where it is left out. None where it is wrong.
fn associated(value: &Value) -> Option<bool>
    ensures { result ≡ associated_at (view value.now) }
{
    match value.get("associated") {
        Some(member) => member.as_bool(),
        None => Some(true),
    }
}

/// A number from 1 to 256.
fn window_of(n: u64) -> Option<u16>
    ensures value { result ≡ in_range 1 256 n }
    ensures range { IfSome result (λ w. (1 ≤ w) × (w ≤ 256)) }
{
    if n == 0 || n > 256 {
        return None;
    }
    Some(n as u16)
}

/// The member `window`, 1 to 256; 64 where it is left out. None where it is wrong.
fn window(value: &Value) -> Option<u16>
    ensures value { result ≡ window_at (view value.now) }
    ensures range { IfSome result (λ n. (1 ≤ n) × (n ≤ 256)) }
{
    match value.get("window") {
        Some(member) => match member.as_u64() {
            Some(n) => window_of(n),
            None => None,
        },
        None => Some(64),
    }
}

/// The head, where its two addresses differ.
fn if_apart(head: Head) -> Result<Head, Stop>
    ensures apart { Gives result (apart head) }
    ensures same { IfOk result (λ h. h ≡ head) }
    ensures different { IsOk result → head.ap ≢ head.sta }
{
    if head.ap == head.sta {
        return Err(Stop::Wrong);
    }
    Ok(head)
}

/// The members outside the commands. Wrong where one is wrong, is missing or is one more.
#[tactic(auto, unfolding(crate::specs::Head::head_of))]
pub fn read_head(alloc: Global, value: &Value) -> Result<Head, Stop>
    ensures read { Gives result (head_of (view value.now)) }
    ensures sound { IfOk result IsSoundHead }
{
    if !has_version(value) {
        return Err(Stop::Wrong);
    }
    let ap = address(value, "ap").ok_or(Stop::Wrong)?;
    let sta = address(value, "sta").ok_or(Stop::Wrong)?;
    let key = key(value, "key").ok_or(Stop::Wrong)?;
    let associated = associated(value).ok_or(Stop::Wrong)?;
    let window = window(value).ok_or(Stop::Wrong)?;
    let denials = read_denials(value).ok_or(Stop::Wrong)?;
    let firsts = read_firsts(value).ok_or(Stop::Wrong)?;
    let links = links(alloc, value)?;
    let accept = accept(links.as_slice(), value).ok_or(Stop::Wrong)?;
    if_apart(Head {
        ap,
        sta,
        key,
        links,
        associated,
        window,
        accept,
        denials,
        firsts,
    })
}

/// The commands; none where they are left out. None where they aren't a list.
#[tactic(auto, unfolding(crate::specs::Scene::commands_of))]
pub fn command_list<'v>(value: &'v Value) -> Option<&'v [Value]>
    ensures { option_map (λ l. items_view l.now) result ≡ commands_of (view value.now) }
{
    match value.get("before") {
        Some(member) => match member.as_array() {
            Some(list) => Some(list.as_slice()),
            None => None,
        },
        None => Some(&[]),
    }
}
