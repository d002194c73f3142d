//! Members that commands have in common.

ghost use Rattle.std.specs.Prelude.{◌≡◌, ◌<◌, ◌≤◌, ◌^◌, ◌-◌, option_and_then, option_map, IfSome};
ghost use Rattle.std.specs.Result.{result_ok};
ghost use Rattle.hex.specs.Hex.{decode_of};
ghost use Rattle.serde_json.specs.View.{view};
ghost use Rattle.wl_scene.specs.Answering.{Gives};
ghost use Rattle.wl_scene.specs.Members.{below, in_range, whole_of, hex_at};
ghost use Rattle.wl_scene.specs.Fields.{end_named, end_at, tid_at, lane_at, if_link, link_in, key_at, pn_at, position_at, sequence_at, body_at, injected_at, nth_at, on_at, machine_named, machine_at};

use crate::fault::Stop;
use crate::member::{boolean, has_text, text, whole};
use hex::FromHexError;
use serde_json::Value;
use std::alloc::Global;
use wl_elem::{Bytes, EndId, Lane, LinkId, MSDU_LIMIT, Tid};
use wl_history::{LinkStart, Machine};

/// The greatest packet number.
const LAST_PN: u64 = 0xffff_ffff_ffff;

/// At most so many octets are put before an end at once.
const OCTETS_LIMIT: usize = 4_096;

/// The end of a name.
pub fn end_of(name: &str) -> Option<EndId>
    ensures { result ≡ end_named name.now }
{
    if name == "ap" {
        return Some(EndId::Ap);
    }
    if name == "sta" {
        return Some(EndId::Sta);
    }
    None
}

/// The member `end`: `ap` or `sta`.
pub fn end(value: &Value) -> Option<EndId>
    ensures { result ≡ end_at (view value.now) }
{
    match text(value, "end") {
        Some(name) => end_of(name),
        None => None,
    }
}

/// The TID of a number, 0 to 7.
fn tid_of(n: u64) -> Option<Tid>
    ensures { result ≡ below 8 n }
{
    match u8::try_from(n) {
        Ok(n) => Tid::new(n),
        Err(_) => None,
    }
}

/// The member `tid`, 0 to 7.
pub fn tid(value: &Value) -> Option<Tid>
    ensures { result ≡ tid_at (view value.now) }
{
    match whole(value, "tid") {
        Some(n) => tid_of(n),
        None => None,
    }
}

/// The lane of a TID's data.
fn lane_of(n: u64) -> Option<Lane>
    ensures { result ≡ option_map Lane.Tid (below 8 n) }
{
    match tid_of(n) {
        Some(tid) => Some(Lane::Tid(tid)),
        None => None,
    }
}

/// The member `lane`: 0 to 7 for the data of a TID, or `m` for management.
pub fn lane(value: &Value) -> Option<Lane>
    ensures { result ≡ lane_at (view value.now) }
{
    if has_text(value, "lane", "m") {
        return Some(Lane::Management);
    }
    match whole(value, "lane") {
        Some(n) => lane_of(n),
        None => None,
    }
}

/// The ID of the link that has this one.
pub fn link_of(links: &[LinkStart], n: u64) -> Option<LinkId>
    ensures { result ≡ if_link links.now n }
{
    match links {
        [] => None,
        [first, rest @ ..] => {
            if u64::from(first.id.get()) == n {
                return Some(first.id);
            }
            link_of(rest, n)
        }
    }
}

/// The member `link`: the ID of one of these links.
pub fn link(links: &[LinkStart], value: &Value) -> Option<LinkId>
    ensures { result ≡ link_in links.now (view value.now) }
{
    match whole(value, "link") {
        Some(n) => link_of(links, n),
        None => None,
    }
}

/// The member `key`, 0 to 65,535.
pub fn key(value: &Value) -> Option<u16>
    ensures { result ≡ key_at (view value.now) }
{
    match whole(value, "key") {
        Some(n) => u16::try_from(n).ok(),
        None => None,
    }
}

/// A packet number, 1 to 2^48 - 1.
fn pn_of(n: u64) -> Option<u64>
    ensures value { result ≡ in_range 1 (2 ^ 48 - 1) n }
    ensures range { IfSome result (λ pn. (1 ≤ pn) × (pn < 2 ^ 48)) }
{
    if n == 0 || n > LAST_PN {
        return None;
    }
    Some(n)
}

/// The member `pn`, 1 to 2^48 - 1.
pub fn pn(value: &Value) -> Option<u64>
    ensures value { result ≡ pn_at (view value.now) }
    ensures range { IfSome result (λ pn. (1 ≤ pn) × (pn < 2 ^ 48)) }
{
    match whole(value, "pn") {
        Some(n) => pn_of(n),
        None => None,
    }
}

/// The position that a member is, below 2^32.
pub fn position(value: &Value, name: &str) -> Option<u32>
    ensures { result ≡ position_at name.now (view value.now) }
{
    match whole(value, name) {
        Some(n) => u32::try_from(n).ok(),
        None => None,
    }
}

/// A number below 4,096.
fn sequence_of(n: u64) -> Option<u16>
    ensures { result ≡ below 4096 n }
{
    if n >= 4_096 {
        return None;
    }
    Some(n as u16)
}

/// The member `number`, a sequence number below 4,096.
pub fn sequence(value: &Value) -> Option<u16>
    ensures { result ≡ sequence_at (view value.now) }
{
    match whole(value, "number") {
        Some(n) => sequence_of(n),
        None => None,
    }
}

/// A number below 2^32.
fn nth_of(member: &Value) -> Option<u32>
    ensures { result ≡ option_and_then (below (2 ^ 32)) (whole_of (view member.now)) }
{
    match member.as_u64() {
        Some(n) => u32::try_from(n).ok(),
        None => None,
    }
}

/// The member `nth`, which may be left out. None where it is wrong.
pub fn nth(value: &Value) -> Option<Option<u32>>
    ensures { result ≡ nth_at (view value.now) }
{
    match value.get("nth") {
        Some(member) => match nth_of(member) {
            Some(n) => Some(Some(n)),
            None => None,
        },
        None => Some(None),
    }
}

/// The octets of hex digits.
fn decoded(alloc: Global, digits: &str) -> Result<Bytes, Stop>
    ensures { Gives result (result_ok (decode_of digits.now)) }
{
    match hex::decode(alloc, digits) {
        Ok(octets) => Ok(Bytes::from_vec(octets)),
        Err(FromHexError::OutOfMemory) => Err(Stop::NoMemory),
        Err(_) => Err(Stop::Wrong),
    }
}

/// The octets that a member is, as hex digits.
fn octets(alloc: Global, value: &Value, name: &str) -> Result<Bytes, Stop>
    ensures { Gives result (hex_at name.now (view value.now)) }
{
    match text(value, name) {
        Some(digits) => decoded(alloc, digits),
        None => Err(Stop::Wrong),
    }
}

/// The member `body`, 1 to 2,304 octets.
pub fn body(alloc: Global, value: &Value) -> Result<Bytes, Stop>
    ensures { Gives result (body_at (view value.now)) }
{
    let body = octets(alloc, value, "body")?;
    if body.is_empty() || body.as_slice().len() > MSDU_LIMIT {
        return Err(Stop::Wrong);
    }
    Ok(body)
}

/// The member `hex`, at most 4,096 octets.
pub fn injected(alloc: Global, value: &Value) -> Result<Bytes, Stop>
    ensures { Gives result (injected_at (view value.now)) }
{
    let octets = octets(alloc, value, "hex")?;
    if octets.as_slice().len() > OCTETS_LIMIT {
        return Err(Stop::Wrong);
    }
    Ok(octets)
}

/// The member `on`.
pub fn on(value: &Value) -> Option<bool>
    ensures { result ≡ on_at (view value.now) }
{
    boolean(value, "on")
}

/// What an end asked for, by its name.
fn machine_of(name: &str) -> Option<Machine>
    ensures { result ≡ machine_named name.now }
{
    if name == "map" {
        return Some(Machine::Map);
    }
    None
}

/// The member `what`: `map`.
pub fn machine(value: &Value) -> Option<Machine>
    ensures { result ≡ machine_at (view value.now) }
{
    match text(value, "what") {
        Some(name) => machine_of(name),
        None => None,
    }
}
