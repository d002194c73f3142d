//! Calls of the libraries, one a line of standard input, each printed with its answer.
//!
//! A blank line, or one that begins with `#`, is printed as it stands. Each other one is the name of a
//! call and its words, with a space between any two; it is printed with ` = ` and the answer behind it.
//! Where a word can't be read, or there is no such call, the answer is `unreadable`.
#![tactic(auto)]

mod action;
mod association;
mod elements;
mod frame;
mod history;
mod inheritance;
mod lists;
mod mapping;
mod multi_link;
mod numbers;
mod octets;
mod replay;
mod steps;
mod streams;
mod texts;
mod window;
mod words;

use std::alloc::Global;
use std::io;

/// The answer of the library that has a call of this name.
fn library_answer(alloc: Global, name: &str, words: &[&str]) -> Option<String> {
    elements::answer(alloc, name, words)
        .or(mapping::answer(alloc, name, words))
        .or(multi_link::answer(alloc, name, words))
        .or(inheritance::answer(alloc, name, words))
        .or(association::answer(alloc, name, words))
        .or(action::answer(alloc, name, words))
        .or(frame::answer(alloc, name, words))
        .or(numbers::answer(alloc, name, words))
        .or(replay::answer(alloc, name, words))
        .or(window::answer(alloc, name, words))
        .or(history::answer(alloc, name, words))
        .or(texts::answer(alloc, name, words))
        .or(streams::answer(alloc, name, words))
}

/// The answer of a call. None where there is none of this name, or a word can't be read.
fn answer(alloc: Global, line: &str) -> Option<String> {
    let mut words = Vec::new(alloc);
    for word in line.split(' ') {
        words.push(word).ok()?;
    }
    let (name, words) = words.as_slice().split_first()?;
    library_answer(alloc, name, words)
}

/// Prints a line, with the answer where it is a call.
fn print_line(rt: &(impl Print + AllocGlobal), line: &str) -> io::Result<()> {
    if line.is_empty() || line.starts_with('#') {
        return println!(rt; "{line}");
    }
    match answer(rt.alloc(), line) {
        Some(answer) => println!(rt; "{line} = {answer}"),
        None => println!(rt; "{line} = unreadable"),
    }
}

fn main(rt: HostRuntime) -> io::Result<()> {
    for line in rt.lines(rt.alloc()) {
        print_line(&rt, line?.as_str())?;
    }
    Ok(())
}
