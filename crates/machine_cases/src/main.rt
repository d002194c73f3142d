//! The machines of the workspace, one a line of standard input, each printed with what its calls answer.
//!
//! A blank line, or one that begins with `#`, is printed as it stands. Each other one is the name of a
//! machine, what it starts with, and its calls, with a space between any two; it is printed with ` = ` and
//! the answers behind it. Where a word can't be read, or there is no such machine or call, the answer is
//! `unreadable`.
#![tactic(auto)]

mod joining;
mod mapping;
mod message;
mod setup;
mod words;

use crate::words::parts_of;
use std::alloc::Global;
use std::io;

/// What the calls of a line answer. None where there is no machine of its name, or a word can't be read.
fn answer(alloc: Global, line: &str) -> Option<String> {
    let words = parts_of(alloc, line, ' ')?;
    match words.as_slice() {
        ["station_setup", words @ ..] => setup::station_setup(alloc, words),
        ["ap_setup", words @ ..] => setup::ap_setup(alloc, words),
        ["ask_body", words @ ..] => joining::ask_body(alloc, words),
        ["reply_body", words @ ..] => joining::reply_body(alloc, words),
        ["ask_in", words @ ..] => joining::ask_in(alloc, words),
        ["reply_in", words @ ..] => joining::reply_in(alloc, words),
        ["default_mapping", words @ ..] => mapping::default_mapping(alloc, words),
        ["mapping", words @ ..] => mapping::mapping(alloc, words),
        ["map_end", words @ ..] => mapping::map_end(alloc, words),
        ["map_ask_body", words @ ..] => message::map_ask_body(alloc, words),
        ["map_reply_body", words @ ..] => message::map_reply_body(alloc, words),
        ["map_teardown_body"] => message::map_teardown_body(alloc),
        ["message", words @ ..] => message::message(alloc, words),
        _ => None,
    }
}

/// Prints a line, with the answers where it is a machine with its calls.
fn print_line(rt: &(impl Print + AllocGlobal), line: &str) -> io::Result<()> {
    if line.is_empty() || line.starts_with('#') {
        return println!(rt; "{line}");
    }
    match answer(rt.alloc(), line) {
        Some(answer) => println!(rt; "{line} = {answer}"),
        None => println!(rt; "{line} = unreadable"),
    }
}

fn main(rt: HostRuntime) -> io::Result<()> {
    for line in rt.lines(rt.alloc()) {
        print_line(&rt, line?.as_str())?;
    }
    Ok(())
}
