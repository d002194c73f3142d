//! Bodies of multi-link setup.

use crate::setup::{ask_text, reply_text};
use crate::words::{address_of, addresses_of, link_of, statuses_of, text};
use std::alloc::Global;
use wl_joining::{read_ask, read_reply, write_ask, write_reply};
use wl_setup::{SetupAsk, SetupReply};

/// The most octets of further elements in a request.
const MOST_ELEMENTS: usize = 1024;

/// The most octets of a body.
const MOST_BODY: usize = 16_777_216;

/// The octets of hex digits, or none of `-`.
fn octets_of(alloc: Global, word: &str) -> Option<Vec<u8>> {
    if word == "-" {
        return Some(Vec::new(alloc));
    }
    hex::decode(alloc, word).ok()
}

/// `ask_body ON MLD ADDRESSES ELEMENTS`: the body of a request with further elements.
pub fn ask_body(alloc: Global, words: &[&str]) -> Option<String> {
    let [on, mld, macs, elements] = words else {
        return None;
    };
    let ask = SetupAsk {
        on: link_of(on)?,
        mld: address_of(alloc, mld)?,
        macs: addresses_of(alloc, macs)?,
    };
    let elements = octets_of(alloc, elements)?;
    if elements.len() > MOST_ELEMENTS {
        return None;
    }
    let body = write_ask(alloc, &ask, elements.as_slice()).ok()?;
    hex::encode(alloc, body.as_slice()).ok()
}

/// `reply_body MLD ADDRESSES ON STATUSES`: the body of an AP's response.
pub fn reply_body(alloc: Global, words: &[&str]) -> Option<String> {
    let [mld, macs, on, statuses] = words else {
        return None;
    };
    let mld = address_of(alloc, mld)?;
    let macs = addresses_of(alloc, macs)?;
    let reply = SetupReply {
        on: link_of(on)?,
        status: statuses_of(statuses)?,
    };
    if reply.status[usize::from(reply.on.get())].is_none() {
        return None;
    }
    let body = write_reply(alloc, mld, &macs, &reply).ok()?;
    hex::encode(alloc, body.as_slice()).ok()
}

/// `ask_in ON ADDRESS BODY`: the request that an AP takes of a body over this link from this address, or
/// `none`.
pub fn ask_in(alloc: Global, words: &[&str]) -> Option<String> {
    let [on, mac, body] = words else {
        return None;
    };
    let mac = address_of(alloc, mac)?;
    let body = octets_of(alloc, body)?;
    if body.len() > MOST_BODY {
        return None;
    }
    match read_ask(alloc, link_of(on)?, mac, body.as_slice()).ok()? {
        Some(ask) => ask_text(alloc, &ask),
        None => text(alloc, "none"),
    }
}

/// `reply_in ON BODY`: the reply that a station takes of a body over this link, or `none`.
pub fn reply_in(alloc: Global, words: &[&str]) -> Option<String> {
    let [on, body] = words else {
        return None;
    };
    let body = octets_of(alloc, body)?;
    if body.len() > MOST_BODY {
        return None;
    }
    match read_reply(alloc, link_of(on)?, body.as_slice()).ok()? {
        Some(reply) => reply_text(alloc, &reply),
        None => text(alloc, "none"),
    }
}
