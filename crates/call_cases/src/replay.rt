//! Calls on what a receiver of protected frames keeps.

use crate::words::{lane_of, name_of, number_of, push_answer, text, yes};
use std::alloc::Global;
use wl_elem::Lane;
use wl_replay::{KeyRing, Pair, ReplayGuard};

/// The answer of a call. None where there is none of this name, or a word can't be read.
pub fn answer(alloc: Global, name: &str, words: &[&str]) -> Option<String> {
    match name {
        "replay_guard" => replay_guard(alloc, words),
        "key_ring" => key_ring(alloc, words),
        _ => None,
    }
}

/// A lane's last pair.
fn last_text(alloc: Global, last: Option<Pair>) -> Option<String> {
    match last {
        Some(Pair { key, pn }) => format!(in alloc; "{key}:{pn}").ok(),
        None => text(alloc, "none"),
    }
}

/// The lane and the pair of `LANE:KEY:PN`.
fn lane_pair_of(word: &str) -> Option<(Lane, Pair)> {
    let (lane, pair) = word.split_once(':')?;
    let (key, pn) = pair.split_once(':')?;
    let lane = lane_of(lane)?;
    let key = number_of::<u16>(key)?;
    let pn = number_of::<u64>(pn)?;
    Some((lane, Pair { key, pn }))
}

/// Takes a pair of a lane.
fn admitted(alloc: Global, guard: &mut ReplayGuard, word: &str) -> Option<String> {
    let (lane, pair) = lane_pair_of(word)?;
    text(alloc, yes(guard.admit(lane, pair.key, pair.pn)))
}

/// Whether a pair is above the lane's last.
fn is_above(alloc: Global, guard: &ReplayGuard, word: &str) -> Option<String> {
    let (lane, pair) = lane_pair_of(word)?;
    text(alloc, yes(guard.above(lane, pair.key, pair.pn)))
}

/// What a replay guard answers to one word.
fn guard_answer(alloc: Global, guard: &mut ReplayGuard, word: &str) -> Option<String> {
    match name_of(word) {
        ("admit", rest) => admitted(alloc, guard, rest),
        ("above", rest) => is_above(alloc, guard, rest),
        ("last", lane) => last_text(alloc, guard.last(lane_of(lane)?)),
        _ => None,
    }
}

/// `replay_guard OP..`: what a guard answers to each of `admit:LANE:KEY:PN`, `above:LANE:KEY:PN` and
/// `last:LANE` (the lane's last pair, or `none`).
fn replay_guard(alloc: Global, words: &[&str]) -> Option<String> {
    let mut guard = ReplayGuard::new();
    let mut out = text(alloc, "guard")?;
    for op in words {
        push_answer(&mut out, guard_answer(alloc, &mut guard, op))?;
    }
    Some(out)
}

/// A key as an answer, or what stands for none.
fn key_text(alloc: Global, key: Option<u16>, none: &str) -> Option<String> {
    match key {
        Some(key) => format!(in alloc; "{key}").ok(),
        None => text(alloc, none),
    }
}

/// What a key ring answers to one word.
fn ring_answer(alloc: Global, ring: &mut KeyRing, word: &str) -> Option<String> {
    match name_of(word) {
        ("install", "") => key_text(alloc, ring.install().ok(), "keys_spent"),
        ("newest", "") => key_text(alloc, Some(ring.newest()), "none"),
        ("held", id) => key_text(alloc, ring.held(number_of::<u8>(id)?), "none"),
        _ => None,
    }
}

/// `key_ring NEWEST OP..`: what a ring answers to each of `install` (the key, or `keys_spent`),
/// `newest` and `held:KEY_ID` (the key, or `none`).
fn key_ring(alloc: Global, words: &[&str]) -> Option<String> {
    let (newest, ops) = words.split_first()?;
    let mut ring = KeyRing::new(number_of::<u16>(newest)?);
    let mut out = text(alloc, "ring")?;
    for op in ops {
        push_answer(&mut out, ring_answer(alloc, &mut ring, op))?;
    }
    Some(out)
}
