//! `run_cases`: runs of the top call over memory, each told by a few lines of standard input.
//!
//! A case begins with a line `case` and its title, and ends at a blank line. Its other lines say which
//! words are given, what the source holds, which reads and writes fail, and how many bytes a call moves.
//! What is printed is the title, the status and the place, and what the sink took. The README of this
//! crate has the names of the lines.
#![tactic(auto)]

mod case;
mod named;
mod reading;
mod script;

use std::io;
use std::io::{BufRead, BufReader};

fn main(rt: HostRuntime) -> io::Result<()> {
    let alloc = rt.alloc();
    let mut script = script::Script::new(alloc);
    for line in BufReader::new(alloc, rt.reader())?.lines(alloc) {
        let line = line?;
        let printed = script.read(alloc, line.as_str());
        rt.print(printed.as_str())?;
    }
    let last = script.end(alloc);
    rt.print(last.as_str())
}
