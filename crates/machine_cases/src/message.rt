//! Messages of the negotiation, and the bodies of Action frames that they are.

use crate::mapping::{bitmaps_text, change_of};
use crate::words::{parts_of, text};
use std::alloc::Global;
use wl_elem::List;
use wl_map::Change;
use wl_message::{MapChanges, MapEntry, Message, Ways, changes_of, decode_message, encode_message};

/// The body of a message as hex digits, or `no_direction` where it has none.
fn body_text(alloc: Global, message: &Message) -> Option<String> {
    if !message.has_octets() {
        return text(alloc, "no_direction");
    }
    let body = encode_message(alloc, message).ok()?;
    hex::encode(alloc, body.as_slice()).ok()
}

/// An entry `WAYS:CHANGE`.
fn entry_of(alloc: Global, word: &str) -> Option<MapEntry> {
    let (ways, change) = word.split_once(':')?;
    let ways = match ways {
        "down" => Ways::Down,
        "up" => Ways::Up,
        "both" => Ways::Both,
        _ => return None,
    };
    let change = change_of(alloc, change)??;
    Some(MapEntry { ways, change })
}

/// `map_ask_body TOKEN ENTRY..`: the body of a request for what the entries ask for.
pub fn map_ask_body(alloc: Global, words: &[&str]) -> Option<String> {
    let [token, entries @ ..] = words else {
        return None;
    };
    let mut list = List::new(alloc);
    for entry in entries {
        list.push(entry_of(alloc, entry)?).ok()?;
    }
    let token = token.parse::<u8>().ok()?;
    let changes = changes_of(list.as_slice());
    body_text(alloc, &Message::MapAsk { token, changes })
}

/// `map_reply_body TOKEN STATUS`: the body of a reply.
pub fn map_reply_body(alloc: Global, words: &[&str]) -> Option<String> {
    let [token, status] = words else {
        return None;
    };
    let token = token.parse::<u8>().ok()?;
    let status = status.parse::<u16>().ok()?;
    body_text(alloc, &Message::MapReply { token, status })
}

/// `map_teardown_body`: the body of a teardown.
pub fn map_teardown_body(alloc: Global) -> Option<String> {
    body_text(alloc, &Message::MapTeardown)
}

/// Adds what a direction is to become, where it is named.
fn push_change(alloc: Global, out: &mut String, ways: &str, change: &Option<Change>) -> Option<()> {
    match change {
        None => Some(()),
        Some(Change::Default) => write!(out, " {ways}:default").ok(),
        Some(Change::Sets(maps)) => write!(out, " {ways}:{}", bitmaps_text(alloc, maps)?).ok(),
    }
}

/// A request: its token and its changes.
fn ask_text(alloc: Global, token: u8, changes: &MapChanges) -> Option<String> {
    let mut out = format!(in alloc; "ask {token}").ok()?;
    match changes {
        MapChanges::Both(change) => push_change(alloc, &mut out, "both", &Some(*change))?,
        MapChanges::Each { down, up } => {
            push_change(alloc, &mut out, "down", down)?;
            push_change(alloc, &mut out, "up", up)?;
        }
    }
    Some(out)
}

/// `message HEX`: the message that a body is, or `none`.
pub fn message(alloc: Global, words: &[&str]) -> Option<String> {
    let [digits] = words else {
        return None;
    };
    let body = hex::decode(alloc, *digits).ok()?;
    match decode_message(alloc, body.as_slice()).ok()? {
        Some(Message::MapAsk { token, changes }) => ask_text(alloc, token, &changes),
        Some(Message::MapReply { token, status }) => {
            format!(in alloc; "reply {token} {status}").ok()
        }
        Some(Message::MapTeardown) => text(alloc, "teardown"),
        None => text(alloc, "none"),
    }
}
