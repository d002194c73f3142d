//! Commands, answers and steps as they stand in a line.

use crate::history::sequence_numbers_of;
use crate::octets::octets_of;
use crate::words::{lane_of, link_of, name_of, number_of};
use std::alloc::Global;
use wl_elem::{EndId, Tid, Why};
use wl_history::{Command, KeptWhy, Outcome, Step};

/// The end of a word.
fn end_of(word: &str) -> Option<EndId> {
    match word {
        "ap" => Some(EndId::Ap),
        "sta" => Some(EndId::Sta),
        _ => None,
    }
}

/// Which frame or acknowledgement a word means; `-` is the latest.
fn nth_of(word: &str) -> Option<Option<u32>> {
    match word {
        "-" => Some(None),
        number => Some(Some(number_of::<u32>(number)?)),
    }
}

/// A body that is queued.
fn queue(alloc: Global, end: EndId, word: &str) -> Option<Command> {
    let (tid, body) = word.split_once(':')?;
    let tid = Tid::new(number_of::<u8>(tid)?)?;
    let body = octets_of(alloc, body)?;
    Some(Command::Queue { end, tid, body })
}

/// A frame that is heard.
fn deliver(end: EndId, word: &str) -> Option<Command> {
    let (link, nth) = word.split_once(':')?;
    let link = link_of(link)?;
    let nth = nth_of(nth)?;
    Some(Command::Deliver { end, link, nth })
}

/// A command of an end: its name, and its words behind the end.
fn command_with(alloc: Global, end: EndId, name: &str, rest: &str) -> Option<Command> {
    match name {
        "queue" => queue(alloc, end, rest),
        "book" => Some(Command::Book { end }),
        "put" => Some(Command::Put {
            end,
            link: link_of(rest)?,
        }),
        "deliver" => deliver(end, rest),
        "ack_out" => Some(Command::AckOut {
            end,
            lane: lane_of(rest)?,
        }),
        "ack_in" => Some(Command::AckIn {
            end,
            nth: nth_of(rest)?,
        }),
        "install" => Some(Command::Install { end }),
        "turn" => Some(Command::Turn { end }),
        _ => None,
    }
}

/// A command: its name, the end and the other words, with `:` between any two.
pub fn command_of(alloc: Global, word: &str) -> Option<Command> {
    let (name, rest) = name_of(word);
    let (end, rest) = name_of(rest);
    command_with(alloc, end_of(end)?, name, rest)
}

/// An answer that is a name alone.
fn plain_outcome(name: &str) -> Option<Outcome> {
    match name {
        "reserved" => Some(Outcome::Reserved),
        "handfull" => Some(Outcome::HandFull),
        "nothingqueued" => Some(Outcome::NothingQueued),
        "windowfull" => Some(Outcome::WindowFull),
        "noreserve" => Some(Outcome::NoReserve),
        "nothing" => Some(Outcome::Nothing),
        "notthere" => Some(Outcome::NotThere),
        "linkdown" => Some(Outcome::LinkDown),
        "ignored" => Some(Outcome::Ignored),
        "nokey" => Some(Outcome::NoKey),
        "notopened" => Some(Outcome::NotOpened),
        "replay" => Some(Outcome::Replay),
        "oldnumber" => Some(Outcome::OldNumber),
        "double" => Some(Outcome::Double),
        "oldack" => Some(Outcome::OldAck),
        "keysspent" => Some(Outcome::KeysSpent),
        _ => None,
    }
}

/// A booking that stays, as its link isn't set up.
fn kept(word: &str) -> Option<Outcome> {
    let (lane, pos) = word.split_once(':')?;
    let lane = lane_of(lane)?;
    let pos = number_of::<u32>(pos)?;
    let why = KeptWhy::NotSetUp;
    Some(Outcome::Kept { lane, pos, why })
}

/// A lane that is acknowledged.
fn acked(alloc: Global, word: &str) -> Option<Outcome> {
    let (start, stored) = name_of(word);
    let start = number_of::<u16>(start)?;
    let stored = sequence_numbers_of(alloc, stored)?;
    Some(Outcome::Acked { start, stored })
}

/// An answer: its name and its words, with `:` between any two.
pub fn outcome_of(alloc: Global, word: &str) -> Option<Outcome> {
    let why = Why::Short;
    match name_of(word) {
        ("badframe", place) => Some(Outcome::BadFrame {
            why,
            place: number_of::<u32>(place)?,
        }),
        ("done", count) => Some(Outcome::Done {
            count: number_of::<u32>(count)?,
        }),
        ("installed", key) => Some(Outcome::Installed {
            key: number_of::<u16>(key)?,
        }),
        ("turned", key) => Some(Outcome::Turned {
            key: number_of::<u16>(key)?,
        }),
        ("spent", lane) => Some(Outcome::Spent {
            lane: lane_of(lane)?,
        }),
        ("kept", rest) => kept(rest),
        ("acked", rest) => acked(alloc, rest),
        (name, "") => plain_outcome(name),
        _ => None,
    }
}

/// A step of a thread: the command, of which the step has a copy, and the answer.
fn step_with(alloc: Global, thread: u16, command: &Command, outcome: &str) -> Option<Step> {
    let command = command.copy(alloc).ok()?;
    let outcome = outcome_of(alloc, outcome)?;
    Some(Step {
        thread,
        command,
        outcome,
    })
}

/// A step: the thread, the command and the answer, with `/` between any two.
pub fn step_of(alloc: Global, word: &str) -> Option<Step> {
    let (thread, rest) = word.split_once('/')?;
    let (command, outcome) = rest.split_once('/')?;
    let thread = number_of::<u16>(thread)?;
    step_with(alloc, thread, &command_of(alloc, command)?, outcome)
}
