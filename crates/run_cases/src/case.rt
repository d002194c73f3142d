//! One case: what the top call is given, and how its run is told.

ghost use Rattle.std.specs.Prelude.{◌≤◌};

use crate::named::NamedTexts;
use crate::reading::{calls, counted, push_times, swapped, words};
use std::alloc::{AllocError, Global};
use wl_elem::Bytes;
use wl_frame::StandIn;
use wl_io::{Calls, MemSink, MemSource, Source};
use wl_top::{Outcome, mld_run, task_of, write_reason, write_status};

/// How many bytes a call moves at most, where a case doesn't say.
const MOST: u32 = 10;

/// What the top call is given.
#[derive(Drop)]
pub struct Case {
    words: Vec<String>,
    input: Vec<u8>,
    most: u32,
    failing_reads: Calls,
    failing_writes: Calls,
    /// A status and a place to tell, in the place of a run.
    told: Option<(u8, u64)>,
    /// How many lines of what was written are shown.
    shown: usize,
    ghost moves: { 1 ≤ most },
}

impl Case {
    /// No words, no input, and no call fails.
    pub fn new(alloc: Global) -> Case {
        Case {
            words: Vec::new(alloc),
            input: Vec::new(alloc),
            most: MOST,
            failing_reads: Calls::new(alloc),
            failing_writes: Calls::new(alloc),
            told: None,
            shown: usize::MAX,
        }
    }

    /// Takes a line of this name that adds to the input. None where it is no such line.
    fn add_input(
        &mut self,
        alloc: Global,
        texts: &NamedTexts,
        name: &str,
        value: &str,
    ) -> Option<()> {
        match name {
            "text" => self.input.extend_from_slice(value.as_bytes()).ok(),
            "line" => {
                self.input.extend_from_slice(value.as_bytes()).ok()?;
                self.input.push(b'\n').ok()
            }
            "hex" => {
                let octets = hex::decode(alloc, value).ok()?;
                self.input.extend_from_slice(octets.as_slice()).ok()
            }
            "times" => {
                let (count, text) = counted(value)?;
                push_times(&mut self.input, count, text.as_bytes()).ok()
            }
            "given" => {
                let text = texts.get(value)?;
                self.input.extend_from_slice(text.as_bytes()).ok()
            }
            "swap" => {
                self.input = swapped(alloc, self.input.as_slice(), value)?;
                Some(())
            }
            _ => None,
        }
    }

    /// Takes a line of this name that says how the run is made. None where it is no such line.
    fn set(&mut self, alloc: Global, name: &str, value: &str) -> Option<()> {
        match name {
            "words" => self.words = words(alloc, value)?,
            "most" => self.most = value.parse::<u32>().ok()?.max(1),
            "show" => self.shown = value.parse().ok()?,
            "failing-reads" => self.failing_reads = calls(alloc, value)?,
            "failing-writes" => self.failing_writes = calls(alloc, value)?,
            "status" => {
                let (status, place) = value.split_once(' ')?;
                self.told = Some((status.parse().ok()?, place.parse().ok()?));
            }
            _ => return None,
        }
        Some(())
    }

    /// Takes a line of this name. None where it is no line of a case, or for want of memory.
    pub fn take(
        &mut self,
        alloc: Global,
        texts: &NamedTexts,
        name: &str,
        value: &str,
    ) -> Option<()> {
        match name {
            "text" | "line" | "hex" | "times" | "given" | "swap" => {
                self.add_input(alloc, texts, name, value)
            }
            _ => self.set(alloc, name, value),
        }
    }

    /// Makes the run, and tells it; or tells the status that the case names.
    pub fn tell(self, alloc: Global) -> Result<String, AllocError> {
        match self.told {
            Some((status, place)) => self.status_told(alloc, status, place),
            None => self.run_told(alloc),
        }
    }

    /// What the sink takes of the lines that tell a status and its meaning.
    fn status_told(self, alloc: Global, status: u8, place: u64) -> Result<String, AllocError> {
        let task = task_of(self.words.as_slice());
        let mut sink = MemSink::new(alloc, self.failing_writes, self.most);
        let answer = write_status(status, place, &mut sink);
        let reason = write_reason(task, status, place, &mut sink);
        let mut out = String::new(alloc);
        if let Err(fault) = answer {
            writeln!(out, "the line of the status was cut after {}", fault.taken)?;
        }
        if let Err(fault) = reason {
            writeln!(out, "the line of the reason was cut after {}", fault.taken)?;
        }
        push_written(&mut out, sink.taken(), self.shown)?;
        Ok(out)
    }

    /// How a run ends, and what its sink takes.
    fn run_told(self, alloc: Global) -> Result<String, AllocError> {
        let input = Bytes::from_vec(self.input);
        let mut source = MemSource::new(input, self.failing_reads, self.most);
        let mut sink = MemSink::new(alloc, self.failing_writes, self.most);
        let words = self.words;
        let outcome = mld_run(alloc, words.as_slice(), &mut source, &mut sink, &StandIn);
        let mut out = outcome_told(alloc, &outcome)?;
        let left = left_in(&mut source);
        if left > 0 {
            writeln!(out, "left in the source: {left}")?;
        }
        push_written(&mut out, sink.taken(), self.shown)?;
        Ok(out)
    }
}

/// Status, place, and the steps of the journal where there is one.
fn outcome_told(alloc: Global, outcome: &Outcome) -> Result<String, AllocError> {
    let status = outcome.status;
    let place = outcome.place;
    match &outcome.journal {
        Some(journal) => {
            let steps = journal.steps.as_slice().len();
            format!(in alloc; "status {status} place {place}, a journal of {steps} steps\n")
        }
        None => format!(in alloc; "status {status} place {place}\n"),
    }
}

/// How many bytes the source has left, up to its end or a call that fails.
fn left_in(source: &mut MemSource) -> u64 {
    let mut left = 0_u64;
    let mut part = [0; 64];
    for _ in 0..u64::MAX {
        match source.read(&mut part) {
            Ok(0) | Err(_) => break,
            Ok(n) => left = left.saturating_add(n as u64),
        }
    }
    left
}

/// Adds what was written: so many lines at most, each behind `> `, and behind them how many more there
/// are, or that the last one has no end.
fn push_written(out: &mut String, written: &[u8], shown: usize) -> Result<(), AllocError> {
    let Ok(text) = str::from_utf8(written) else {
        return out.push_str("what was written is no text\n");
    };
    for line in text.lines().take(shown) {
        out.push_str("> ")?;
        out.push_str(line)?;
        out.push_str("\n")?;
    }
    let more = text.lines().count().saturating_sub(shown);
    if more > 0 {
        writeln!(out, "(and {more} more lines)")?;
    }
    if !text.is_empty() && !text.ends_with('\n') {
        out.push_str("(no line end)\n")?;
    }
    Ok(())
}
