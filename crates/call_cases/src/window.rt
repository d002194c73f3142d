//! Calls on both windows of a block ack agreement.

ghost use Rattle.std.specs.Prelude.{◌≡◌, ◌≤◌};

use crate::words::{name_of, number_of, push_answer, text, u16s_of, yes};
use std::alloc::Global;
use wl_window::{ArriveRefusal, MoveRefusal, Numbers12, Origin, OriginRefusal, Reorder, Ups};

/// The answer of a call. None where there is none of this name, or a word can't be read.
pub fn answer(alloc: Global, name: &str, words: &[&str]) -> Option<String> {
    match name {
        "reorder" => reorder(alloc, words),
        "origin" => origin(alloc, words),
        _ => None,
    }
}

/// The sizes of the reordering windows here.
const SIZE: u16 = 64;

/// What waits, in order; it is taken.
fn taken(alloc: Global, up: &mut Ups<u32>) -> Option<Vec<u32>> {
    let mut taken = Vec::new(alloc);
    for _ in 0..up.len() {
        taken.push(up.take_first()?).ok()?;
    }
    if !up.is_empty() || up.take_first().is_some() {
        return None;
    }
    Some(taken)
}

/// Takes a frame, whose item is its number.
fn arrived(
    reorder: &mut Reorder<u32>,
    up: &mut Ups<u32>,
    number: u16,
    size: u16,
) -> Option<&'static str>
    requires { SIZE ≤ reorder.old.room }
    ensures { reorder.new.room ≡ reorder.old.room }
{
    if reorder.start() >= 1 << 31 || size == 0 || size > SIZE {
        return None;
    }
    up.reserve(reorder.due_on_arrival(number, size)).ok()?;
    match reorder.arrive(number, size, u32::from(number), up) {
        Ok(()) => Some("stored"),
        Err(ArriveRefusal::OldNumber(_)) => Some("old"),
        Err(ArriveRefusal::Double(_)) => Some("double"),
    }
}

/// Moves the window.
fn moved(reorder: &mut Reorder<u32>, up: &mut Ups<u32>, start: u16) -> Option<&'static str>
    requires { SIZE ≤ reorder.old.room }
    ensures { reorder.new.room ≡ reorder.old.room }
{
    if reorder.start() >= 1 << 31 {
        return None;
    }
    up.reserve(reorder.due_on_request(start)).ok()?;
    if reorder.request(start, up) {
        return Some("moved");
    }
    Some("not_moved")
}

/// How many would go up if a frame came.
fn due_on_arrival(reorder: &Reorder<u32>, number: u16, size: u16) -> Option<u16>
    requires { SIZE ≤ reorder.now.room }
{
    if reorder.start() >= 1 << 31 || size == 0 || size > SIZE {
        return None;
    }
    Some(reorder.due_on_arrival(number, size))
}

/// How many would go up if the window were moved.
fn due_on_request(reorder: &Reorder<u32>, start: u16) -> Option<u16> {
    if reorder.start() >= 1 << 31 {
        return None;
    }
    Some(reorder.due_on_request(start))
}

/// How many would go up.
fn due_text(alloc: Global, due: Option<u16>) -> Option<String> {
    let due = due?;
    format!(in alloc; "{due}").ok()
}

/// The numbers that are stored, and how many there are.
fn stored_text(alloc: Global, reorder: &Reorder<u32>) -> Option<String> {
    let mut numbers = Numbers12::new();
    reorder.stored(&mut numbers);
    format!(in alloc; "{:?} {}", numbers.as_slice(), reorder.held()).ok()
}

/// What a window answers, what goes up, and its start.
fn came_text(alloc: Global, came: Option<&str>, up: &mut Ups<u32>, start: u32) -> Option<String> {
    let came = came?;
    let up = taken(alloc, up)?;
    format!(in alloc; "{came} {up:?} {start}").ok()
}

/// The number and the size of `NUMBER` or `NUMBER:SIZE`.
fn frame_of(word: &str) -> Option<(u16, u16)> {
    match word.split_once(':') {
        Some((number, size)) => Some((number_of::<u16>(number)?, number_of::<u16>(size)?)),
        None => Some((number_of::<u16>(word)?, SIZE)),
    }
}

/// What a window answers to one word.
fn reorder_answer(
    alloc: Global,
    reorder: &mut Reorder<u32>,
    up: &mut Ups<u32>,
    word: &str,
) -> Option<String>
    requires { SIZE ≤ reorder.old.room }
    ensures { reorder.new.room ≡ reorder.old.room }
{
    match name_of(word) {
        ("frame", rest) => {
            let (number, size) = frame_of(rest)?;
            let came = arrived(reorder, up, number, size);
            came_text(alloc, came, up, reorder.start())
        }
        ("move", start) => {
            let came = moved(reorder, up, number_of::<u16>(start)?);
            came_text(alloc, came, up, reorder.start())
        }
        ("due", rest) => {
            let (number, size) = frame_of(rest)?;
            due_text(alloc, due_on_arrival(reorder, number, size))
        }
        ("due_move", start) => due_text(alloc, due_on_request(reorder, number_of::<u16>(start)?)),
        ("stored", "") => stored_text(alloc, reorder),
        _ => None,
    }
}

/// `reorder OP..`: what a reordering window of at most 64 numbers answers to each of `frame:NUMBER`,
/// `frame:NUMBER:SIZE` while the window has this size, `move:START`, `stored` (the numbers stored, and
/// how many they are), and `due` and `due_move` in place of the first two (how many would go up). Behind
/// each act stand the numbers that go up and the start.
fn reorder(alloc: Global, words: &[&str]) -> Option<String> {
    let mut reorder = Reorder::new(alloc, SIZE).ok()?;
    let mut up = Ups::new(alloc);
    let mut out = text(alloc, "window")?;
    for op in words {
        out.push_str(" /").ok()?;
        push_answer(&mut out, reorder_answer(alloc, &mut reorder, &mut up, op))?;
    }
    Some(out)
}

/// Lets a position go.
fn reserved(alloc: Global, origin: &mut Origin, word: &str) -> Option<String> {
    let (queued, size) = word.split_once(':')?;
    let queued = number_of::<u32>(queued)?;
    let size = number_of::<u16>(size)?;
    if origin.granted() > queued {
        return None;
    }
    match origin.reserve(queued, size) {
        Ok(()) => text(alloc, "granted"),
        Err(OriginRefusal::NothingQueued) => text(alloc, "nothing_queued"),
        Err(OriginRefusal::WindowFull) => text(alloc, "window_full"),
    }
}

/// Books a position.
#[tactic(auto, using(wl_window::proofs::Settling::few_booked))]
fn booked(alloc: Global, origin: &mut Origin, word: &str) -> Option<String> {
    let pos = number_of::<u32>(word)?;
    if origin.top() >= origin.granted() || origin.is_booked(pos) || pos >= 1 << 31 {
        return None;
    }
    origin.reserve_room(pos).ok()?;
    origin.booked(pos).ok()?;
    text(alloc, "booked")
}

/// Gives a position back.
#[tactic(auto, using(wl_window::proofs::Settling::few_booked))]
fn given_back(alloc: Global, origin: &mut Origin) -> Option<String> {
    if origin.top() >= origin.granted() {
        return None;
    }
    origin.give_back();
    text(alloc, "given_back")
}

/// Takes an acknowledgement: how many positions are done since, or `none`.
fn acked(alloc: Global, origin: &mut Origin, word: &str) -> Option<String> {
    let (start, stored) = name_of(word);
    let start = number_of::<u16>(start)?;
    let stored = u16s_of(alloc, stored)?;
    match origin.ack(start, stored.as_slice()) {
        Some(count) => format!(in alloc; "{count}").ok(),
        None => text(alloc, "none"),
    }
}

/// Gives the positions below one up: the new base, or why not.
fn advanced(alloc: Global, origin: &mut Origin, to: &str) -> Option<String> {
    match origin.advance(number_of::<u32>(to)?) {
        Ok(base) => format!(in alloc; "{base}").ok(),
        Err(MoveRefusal::NotBooked) => text(alloc, "not_booked"),
        Err(MoveRefusal::Behind) => text(alloc, "behind"),
    }
}

/// The base, the top and how many positions were let go.
fn origin_text(alloc: Global, origin: &Origin) -> Option<String> {
    let (base, top, granted) = (origin.base(), origin.top(), origin.granted());
    format!(in alloc; "{base}:{top}:{granted}").ok()
}

/// What an originator's window answers to one word.
fn origin_answer(alloc: Global, origin: &mut Origin, word: &str) -> Option<String> {
    match name_of(word) {
        ("reserve", rest) => reserved(alloc, origin, rest),
        ("book", pos) => booked(alloc, origin, pos),
        ("give_back", "") => given_back(alloc, origin),
        ("ack", rest) => acked(alloc, origin, rest),
        ("advance", to) => advanced(alloc, origin, to),
        ("is_done", pos) => text(alloc, yes(origin.is_done(number_of::<u32>(pos)?))),
        ("is_booked", pos) => text(alloc, yes(origin.is_booked(number_of::<u32>(pos)?))),
        ("at", "") => origin_text(alloc, origin),
        _ => None,
    }
}

/// `origin OP..`: what an originator's window answers to each of `reserve:QUEUED:SIZE`, `book:POS`,
/// `give_back`, `ack:START:NUMBER..` (how many are done since, or `none`), `advance:TO` (the new base,
/// or why not), `is_done:POS`, `is_booked:POS` and `at` (the base, the top and how many were let go).
fn origin(alloc: Global, words: &[&str]) -> Option<String> {
    let mut origin = Origin::new(alloc);
    let mut out = text(alloc, "origin")?;
    for op in words {
        push_answer(&mut out, origin_answer(alloc, &mut origin, op))?;
    }
    Some(out)
}
