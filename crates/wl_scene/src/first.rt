//! What the ends send first.

ghost use Rattle.std.specs.Prelude.{◌≡◌, ◌∷◌, [], option_and_then, IfSome};
ghost use Rattle.serde_json.specs.View.{view, items_view};
ghost use Rattle.wl_scene.specs.Members.{each_of};
ghost use Rattle.wl_scene.specs.Head.{first_of, first_named, if_once, firsts_at};
ghost use Rattle.wl_scene.specs.Sound.{IsSoundFirst, AreSoundFirsts};

use crate::field::{end, key, pn};
use crate::member::has_only;
use serde_json::Value;
use wl_elem::EndId;

/// What an end sends first.
#[derive(Clone, Copy, Debug, PartialEq, Eq)]
pub struct First {
    /// The end.
    pub end: EndId,
    /// The key number that it sends under.
    pub key: u16,
    /// The packet number under that key, from 1 on.
    pub pn: u64,
}

/// What both ends send first.
#[derive(Clone, Copy, Debug, PartialEq, Eq)]
pub struct Firsts {
    /// The AP MLD.
    pub ap: First,
    /// The station MLD.
    pub sta: First,
}

/// What an end is said to send first.
fn named(value: &Value) -> Option<First>
    ensures value { result ≡ first_of (view value.now) }
    ensures sound { IfSome result IsSoundFirst }
{
    if !has_only(value, &["end", "key", "pn"]) {
        return None;
    }
    let end = end(value)?;
    let key = key(value)?;
    let pn = pn(value)?;
    Some(First { end, key, pn })
}

/// What an end sends first where nothing is said: the first packet number of key 0.
fn unnamed(end: EndId) -> First
    ensures value { result ≡ first_named end [] }
    ensures sound { IsSoundFirst result }
{
    First { end, key: 0, pn: 1 }
}

/// What both ends send first, where one of them is named.
fn with_one(first: First) -> Firsts
    ensures value { Some result ≡ if_once (first ∷ []) }
    ensures sound { IsSoundFirst first → AreSoundFirsts result }
{
    match first.end {
        EndId::Ap => Firsts {
            ap: first,
            sta: unnamed(EndId::Sta),
        },
        EndId::Sta => Firsts {
            ap: unnamed(EndId::Ap),
            sta: first,
        },
    }
}

/// What both ends send first, where both are named. None where it is one end twice.
fn with_two(a: First, b: First) -> Option<Firsts>
    ensures value { result ≡ if_once (a ∷ b ∷ []) }
    ensures sound { IsSoundFirst a → IsSoundFirst b → IfSome result AreSoundFirsts }
{
    match (a.end, b.end) {
        (EndId::Ap, EndId::Sta) => Some(Firsts { ap: a, sta: b }),
        (EndId::Sta, EndId::Ap) => Some(Firsts { ap: b, sta: a }),
        _ => None,
    }
}

/// What both ends send first, by a list. None where an element is wrong or an end is named twice.
fn firsts_of(values: &[Value]) -> Option<Firsts>
    ensures value { result ≡ option_and_then if_once (each_of first_of (items_view values.now)) }
    ensures sound { IfSome result AreSoundFirsts }
{
    match values {
        [] => Some(Firsts {
            ap: unnamed(EndId::Ap),
            sta: unnamed(EndId::Sta),
        }),
        [one] => {
            let one = named(one)?;
            Some(with_one(one))
        }
        [one, other] => {
            let one = named(one)?;
            let other = named(other)?;
            with_two(one, other)
        }
        [_, _, _, ..] => None,
    }
}

/// What both ends send first, by the member `first`, which may be left out.
pub fn read_firsts(value: &Value) -> Option<Firsts>
    ensures value { result ≡ firsts_at (view value.now) }
    ensures sound { IfSome result AreSoundFirsts }
{
    match value.get("first") {
        Some(member) => match member.as_array() {
            Some(list) => firsts_of(list.as_slice()),
            None => None,
        },
        None => firsts_of(&[]),
    }
}
