//! One end of the negotiation of TID-to-link mappings.

use crate::words::{links_of, parts_of, text};
use std::alloc::Global;
use wl_elem::{Direction, LinkSet};
use wl_map::{Change, MapAsk, MapEnd, MapRefusal};
use wl_ttlm::{Mapping, is_valid};

/// Whether a word says yes.
fn flag_of(word: &str) -> Option<bool> {
    match word {
        "yes" => Some(true),
        "no" => Some(false),
        _ => None,
    }
}

/// The bitmap of a TID, or `-` where it isn't named.
fn bitmap_of(word: &str) -> Option<Option<u16>> {
    if word == "-" {
        return Some(None);
    }
    Some(Some(word.parse::<u16>().ok()?))
}

/// Eight bitmaps with commas between them, `-` where a TID isn't named.
fn bitmaps_of(alloc: Global, word: &str) -> Option<[Option<u16>; 8]> {
    let parts = parts_of(alloc, word, ',')?;
    if parts.len() != 8 {
        return None;
    }
    let mut maps = [None; 8];
    for (tid, part) in parts.as_slice().iter().enumerate() {
        if tid < 8 {
            maps[tid] = bitmap_of(part)?;
        }
    }
    Some(maps)
}

/// Eight bitmaps as they are written in a line.
pub fn bitmaps_text(alloc: Global, maps: &[Option<u16>; 8]) -> Option<String> {
    let mut out = text(alloc, "")?;
    for (tid, map) in maps.iter().enumerate() {
        if tid > 0 {
            out.push_str(",").ok()?;
        }
        match map {
            Some(bits) => write!(out, "{bits}").ok()?,
            None => out.push_str("-").ok()?,
        }
    }
    Some(out)
}

/// What a direction is to become: `default`, eight bitmaps, or `-` where it isn't named.
pub fn change_of(alloc: Global, word: &str) -> Option<Option<Change>> {
    match word {
        "-" => Some(None),
        "default" => Some(Some(Change::Default)),
        _ => Some(Some(Change::Sets(bitmaps_of(alloc, word)?))),
    }
}

/// A mapping as its eight bitmaps.
fn mapping_text(alloc: Global, mapping: &Mapping) -> Option<String> {
    let mut out = text(alloc, "")?;
    for set in mapping.sets {
        if !out.is_empty() {
            out.push_str(",").ok()?;
        }
        write!(out, "{}", set.bits()).ok()?;
    }
    Some(out)
}

/// What the end answers to `ask:TOKEN:DOWN:UP`.
fn asked(alloc: Global, end: &mut MapEnd, token: &str, down: &str, up: &str) -> Option<String> {
    let token = token.parse::<u8>().ok()?;
    match end.ask(token, change_of(alloc, down)?, change_of(alloc, up)?) {
        Ok(ask) => format!(in alloc; "asked:{}", ask.token).ok(),
        Err(MapRefusal::Busy(token)) => format!(in alloc; "busy:{token}").ok(),
        Err(MapRefusal::NotValid) => text(alloc, "not_valid"),
    }
}

/// What the end answers to `peer:TOKEN:DOWN:UP`: the status.
fn answered(alloc: Global, end: &mut MapEnd, token: &str, down: &str, up: &str) -> Option<String> {
    let ask = MapAsk {
        token: token.parse::<u8>().ok()?,
        down: change_of(alloc, down)?,
        up: change_of(alloc, up)?,
    };
    format!(in alloc; "{}", end.on_ask(&ask)).ok()
}

/// What the end answers to a call without members.
fn told(alloc: Global, end: &mut MapEnd, call: &str) -> Option<String> {
    match call {
        "teardown" => end.teardown(),
        "torn_down" => end.on_teardown(),
        "give_up" => {
            return match end.give_up() {
                Some(token) => format!(in alloc; "{token}").ok(),
                None => text(alloc, "none"),
            };
        }
        "down" => return mapping_text(alloc, &end.agreed(Direction::Down)),
        "up" => return mapping_text(alloc, &end.agreed(Direction::Up)),
        _ => return None,
    }
    text(alloc, "done")
}

/// What the end answers to a call.
fn map_answer(alloc: Global, end: &mut MapEnd, call: &str) -> Option<String> {
    let words = parts_of(alloc, call, ':')?;
    match words.as_slice() {
        ["ask", token, down, up] => asked(alloc, end, token, down, up),
        ["peer", token, down, up] => answered(alloc, end, token, down, up),
        ["reply", token, status] => {
            let taken = end.on_reply(token.parse::<u8>().ok()?, status.parse::<u16>().ok()?);
            text(alloc, if taken { "taken" } else { "ignored" })
        }
        ["links", links] => {
            end.links_now(links_of(links)?);
            text(alloc, "done")
        }
        [call] => told(alloc, end, call),
        _ => None,
    }
}

/// `map_end DENY LINKS CALL..`: what an end answers to each of `ask:TOKEN:DOWN:UP` (`asked:TOKEN`,
/// `busy:TOKEN` or `not_valid`), `peer:TOKEN:DOWN:UP` (the status), `reply:TOKEN:STATUS` (`taken` or
/// `ignored`), `teardown`, `torn_down` and `links:LINKS` (`done`), `give_up` (the token, or `none`), and
/// `down` and `up` (eight bitmaps).
pub fn map_end(alloc: Global, words: &[&str]) -> Option<String> {
    let [deny, links, calls @ ..] = words else {
        return None;
    };
    let mut end = MapEnd::new(flag_of(deny)?, links_of(links)?);
    let mut out = text(alloc, "end")?;
    for call in calls {
        let answer = map_answer(alloc, &mut end, call)?;
        write!(out, " {answer}").ok()?;
    }
    Some(out)
}

/// The set of a bitmap.
fn set_of(word: &str) -> Option<LinkSet> {
    LinkSet::from_bits(word.parse::<u16>().ok()?)
}

/// `default_mapping LINKS`: the default over these links.
pub fn default_mapping(alloc: Global, words: &[&str]) -> Option<String> {
    let [links] = words else {
        return None;
    };
    mapping_text(alloc, &Mapping::default_over(links_of(links)?))
}

/// `mapping BITMAPS LINKS`: whether the mapping of eight bitmaps is valid over these links.
pub fn mapping(alloc: Global, words: &[&str]) -> Option<String> {
    let [bitmaps, links] = words else {
        return None;
    };
    let mut sets = Mapping::default_over(links_of("-")?).sets;
    let parts = parts_of(alloc, bitmaps, ',')?;
    for (tid, part) in parts.as_slice().iter().enumerate() {
        if tid < 8 {
            sets[tid] = set_of(part)?;
        }
    }
    let valid = is_valid(&Mapping { sets }, links_of(links)?);
    text(alloc, if valid { "valid" } else { "not_valid" })
}
