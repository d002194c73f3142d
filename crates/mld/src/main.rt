//! `mld`: decodes and checks IEEE 802.11be elements and frames given as hex lines, and runs scenarios
//! of two multi-link devices.
//!
//! It reads standard input, writes standard output, and ends with the status of the run. A status
//! other than 0 is told on standard error, with its place and what it means.
#![tactic(auto)]

use std::env::{self, Env};
use std::io;
use std::io::{ErrorKind, Write};
use std::process::ExitCode;
use wl_frame::StandIn;
use wl_io::{StdSink, StdSource};
use wl_top::{Ending, Outcome, mld_run, task_of, write_reason, write_status};

/// The words behind the program's name.
fn words(rt: &(impl Env + AllocGlobal)) -> io::Result<Vec<String>> {
    let mut words = Vec::new(rt.alloc());
    for word in env::args(rt)?.skip(1) {
        words.push(word)?;
    }
    Ok(words)
}

/// How a run ends whose words weren't read: they aren't UTF-8, or there was no memory for them.
fn without_words(error: &io::Error) -> Outcome {
    match error.kind() {
        ErrorKind::OutOfMemory => Ending::Memory.outcome(None),
        _ => Ending::Usage.outcome(None),
    }
}

fn main(rt: HostRuntime) -> ExitCode {
    let (task, outcome) = match words(&rt) {
        Ok(words) => {
            let mut source = StdSource::new(rt.stdin());
            let mut sink = StdSink::new(rt.stdout());
            let task = task_of(words.as_slice());
            let outcome = mld_run(
                rt.alloc(),
                words.as_slice(),
                &mut source,
                &mut sink,
                &StandIn,
            );
            (task, outcome)
        }
        Err(error) => (None, without_words(&error)),
    };
    if outcome.status != 0 {
        let mut errors = StdSink::new(rt.stderr());
        // The exit status tells the outcome too, so a line that isn't taken is passed over.
        let _ = write_status(outcome.status, outcome.place, &mut errors);
        let _ = write_reason(task, outcome.status, outcome.place, &mut errors);
    }
    ExitCode::from(outcome.status)
}
