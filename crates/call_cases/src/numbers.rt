//! Calls on the numbers that an end gives, and on the book of them.

ghost use Rattle.std.specs.Prelude.{◌≤◌, ◌<◌, ◌-◌, ◌^◌, IfSome};

use crate::words::{lane_of, lane_text, name_of, number_of, push_answer, text};
use std::alloc::Global;
use wl_elem::Lane;
use wl_number::{BookFault, Bookings, NumberState, Numbers};

/// The answer of a call. None where there is none of this name, or a word can't be read.
pub fn answer(alloc: Global, name: &str, words: &[&str]) -> Option<String> {
    match name {
        "number_state" => number_state(alloc, words),
        "bookings" => bookings(alloc, words),
        _ => None,
    }
}

/// The numbers of `POS:KEY:PN`.
fn numbers_of(word: &str) -> Option<Numbers>
    ensures pos { IfSome result (λ n. n.pos < 2 ^ 32 - 1) }
    ensures some { IfSome result (λ n. 1 ≤ n.pn) }
    ensures bound { IfSome result (λ n. n.pn < 2 ^ 48) }
{
    let (pos, pair) = word.split_once(':')?;
    let (key, pn) = pair.split_once(':')?;
    let pos = number_of::<u32>(pos)?;
    let key = number_of::<u16>(key)?;
    let pn = number_of::<u64>(pn)?;
    if pos == u32::MAX || pn == 0 || pn >= 1 << 48 {
        return None;
    }
    Some(Numbers { pos, key, pn })
}

/// Numbers as an answer shows them, behind a text: the position, the key and the packet number.
fn numbers_text(alloc: Global, front: &str, n: Numbers) -> Option<String> {
    let Numbers { pos, key, pn } = n;
    format!(in alloc; "{front}{pos}:{key}:{pn}").ok()
}

/// The next numbers of a lane.
fn drawn(alloc: Global, state: &mut NumberState, lane: &Lane) -> Option<String> {
    if state.position(*lane) == u32::MAX {
        return None;
    }
    match state.next(*lane) {
        Ok(numbers) => numbers_text(alloc, "", numbers),
        Err(_) => text(alloc, "spent"),
    }
}

/// What a turn answers.
fn key_text(alloc: Global, key: Option<u16>) -> Option<String> {
    match key {
        Some(key) => format!(in alloc; "{key}").ok(),
        None => text(alloc, "keys_spent"),
    }
}

/// Takes account of numbers that were booked.
fn entered(alloc: Global, state: &mut NumberState, word: &str) -> Option<String> {
    let (lane, numbers) = word.split_once(':')?;
    let lane = lane_of(lane)?;
    let numbers = numbers_of(numbers)?;
    state.entered(lane, numbers);
    text(alloc, "taken")
}

/// The next position of a lane, the key and the next packet number.
fn next_text(alloc: Global, state: &NumberState, lane: Lane) -> Option<String> {
    let pos = state.position(lane);
    format!(in alloc; "{pos}:{}:{}", state.key(), state.next_pn()).ok()
}

/// What a state of numbers answers to one word.
fn state_answer(alloc: Global, state: &mut NumberState, word: &str) -> Option<String> {
    match name_of(word) {
        ("next", lane) => drawn(alloc, state, &lane_of(lane)?),
        ("turn", "") => key_text(alloc, state.turn().ok()),
        ("turn_to", key) => key_text(alloc, state.turn_to(number_of::<u16>(key)?).ok()),
        ("entered", rest) => entered(alloc, state, rest),
        ("at", lane) => next_text(alloc, state, lane_of(lane)?),
        _ => None,
    }
}

/// `number_state KEY PN OP..`: what numbers that begin with this key and this packet number answer to
/// each of `next:LANE` (the numbers, or `spent`), `turn` and `turn_to:KEY` (the key, or `keys_spent`),
/// `entered:LANE:POS:KEY:PN` (`taken`) and `at:LANE` (the next position, the key and the next packet
/// number). A lane is a TID, or `m`.
fn number_state(alloc: Global, words: &[&str]) -> Option<String> {
    let [key, pn, ops @ ..] = words else {
        return None;
    };
    let key = number_of::<u16>(key)?;
    let pn = number_of::<u64>(pn)?;
    if pn == 0 || pn >= 1 << 48 {
        return None;
    }
    let mut state = NumberState::new(key, pn);
    let mut out = text(alloc, "numbers")?;
    for op in ops {
        push_answer(&mut out, state_answer(alloc, &mut state, op))?;
    }
    Some(out)
}

/// Books numbers, with room made before.
fn booked(alloc: Global, book: &mut Bookings, word: &str) -> Option<String> {
    let (lane, numbers) = word.split_once(':')?;
    let lane = lane_of(lane)?;
    let numbers = numbers_of(numbers)?;
    book.reserve().ok()?;
    match book.book(lane, numbers) {
        Ok(()) => text(alloc, "booked"),
        Err(BookFault::Wasted { presented, kept }) if presented == numbers => {
            numbers_text(alloc, "wasted:", kept)
        }
        Err(_) => None,
    }
}

/// The booking that numbers would break the order with.
fn broken(alloc: Global, book: &Bookings, word: &str) -> Option<String> {
    let (lane, numbers) = word.split_once(':')?;
    let lane = lane_of(lane)?;
    let numbers = numbers_of(numbers)?;
    found_text(alloc, book.breaks(lane, numbers))
}

/// The booking of a lane at a position.
fn booking_at(alloc: Global, book: &Bookings, word: &str) -> Option<String> {
    let (lane, pos) = word.split_once(':')?;
    let lane = lane_of(lane)?;
    let pos = number_of::<u32>(pos)?;
    found_text(alloc, book.at(lane, pos))
}

/// The lane and the position of the booking of a pair.
fn booking_of(alloc: Global, book: &Bookings, word: &str) -> Option<String> {
    let (key, pn) = word.split_once(':')?;
    let key = number_of::<u16>(key)?;
    let pn = number_of::<u64>(pn)?;
    place_text(alloc, book.of_pair(key, pn))
}

/// The booking that was found.
fn found_text(alloc: Global, found: Option<Numbers>) -> Option<String> {
    match found {
        Some(numbers) => numbers_text(alloc, "", numbers),
        None => text(alloc, "none"),
    }
}

/// The lane and the position that were found.
fn place_text(alloc: Global, found: Option<(Lane, u32)>) -> Option<String> {
    match found {
        Some((lane, pos)) => format!(in alloc; "{}:{pos}", lane_text(alloc, lane)?).ok(),
        None => text(alloc, "none"),
    }
}

/// What a book answers to one word.
fn book_answer(alloc: Global, book: &mut Bookings, word: &str) -> Option<String> {
    match name_of(word) {
        ("book", rest) => booked(alloc, book, rest),
        ("breaks", rest) => broken(alloc, book, rest),
        ("at", rest) => booking_at(alloc, book, rest),
        ("of_pair", rest) => booking_of(alloc, book, rest),
        _ => None,
    }
}

/// `bookings OP..`: what a book answers to each of `book:LANE:POS:KEY:PN` (`booked`, or `wasted` and the
/// booking that stands against it), `breaks:LANE:POS:KEY:PN` (that booking, or `none`), `at:LANE:POS`
/// (the booking, or `none`) and `of_pair:KEY:PN` (its lane and position, or `none`).
fn bookings(alloc: Global, words: &[&str]) -> Option<String> {
    let mut book = Bookings::new(alloc);
    let mut out = text(alloc, "book")?;
    for op in words {
        push_answer(&mut out, book_answer(alloc, &mut book, op))?;
    }
    Some(out)
}
