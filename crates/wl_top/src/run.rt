//! The top call: what the words ask for, from a source to a sink.

ghost use Rattle.std.specs.Prelude.{◌≡◌, ◌↔◌, ℕ, List, map, IsTrue, IfSome, IfNone};
ghost use Rattle.std.specs.String.{string_bytes};
ghost use Rattle.wl_io.specs.Seen.{seen};
ghost use Rattle.wl_top.specs.declared.run.Task.{Task};
ghost use Rattle.wl_top.specs.declared.run.Task.TheVariants.{Simulate as IsSimulate};
ghost use Rattle.wl_top.specs.declared.ending.Ending.{Ending};
ghost use Rattle.wl_top.specs.Run.{CheckEnds, verdict_ending, DecodeEnds, EndsAs, IsOutcome, IsReadEnding, IsTask, outcome_of, task_word};
ghost use Rattle.wl_top.specs.Simulated.{IsSafeIf, journal_in};

use crate::ending::{Ending, Outcome};
use crate::simulate::{Simulated, simulate};
use std::alloc::Global;
use wl_frame::Sealer;
use wl_io::{ReadFault, Sink, Source, read_all, write_all};
use wl_shown::{TextFault, checked_lines, shown_lines};

/// The commands.
#[derive(Clone, Copy, Debug, PartialEq, Eq)]
pub enum Task {
    /// `decode`: show hex lines.
    Decode,
    /// `check`: judge hex lines.
    Check,
    /// `run`: do what a scenario asks for.
    Simulate,
}

/// Whether a word is this text.
fn is_word(word: &String, text: &str) -> bool
    ensures { IsTrue result ↔ (string_bytes word.now ≡ text.now) }
{
    word.as_str() == text
}

/// The command of a word.
fn task_named(word: &String) -> Option<Task>
    ensures some { IfSome result (λ task. string_bytes word.now ≡ task_word task) }
    ensures none { IfNone result ((task : Task) → string_bytes word.now ≡ task_word task → ⊥) }
{
    if is_word(word, "decode") {
        return Some(Task::Decode);
    }
    if is_word(word, "check") {
        return Some(Task::Check);
    }
    if is_word(word, "run") {
        return Some(Task::Simulate);
    }
    None
}

/// The command that the words ask for: one word, which is a command's. None exactly where they ask for none.
pub fn task_of(words: &[String]) -> Option<Task>
    ensures some { IfSome result (IsTask (map string_bytes words.now)) }
    ensures none { IfNone result ((task : Task) → IsTask (map string_bytes words.now) task → ⊥) }
{
    match words {
        [word] => task_named(word),
        _ => None,
    }
}

/// The ending of a run whose input wasn't read.
fn unread(fault: ReadFault) -> Ending
    ensures { IsReadEnding fault result }
{
    match fault {
        ReadFault::Failed => Ending::ReadFault,
        ReadFault::TooLong(count) => Ending::TooLong(count),
        ReadFault::Memory => Ending::Memory,
    }
}

/// Shows hex lines.
fn decode<S: Source, K: Sink>(alloc: Global, source: &mut S, sink: &mut K) -> Ending
    ensures { DecodeEnds (seen S.left S.faults source.old source.new) (seen K.taken K.faults sink.old sink.new) result }
{
    let input = match read_all(alloc, source) {
        Ok(input) => input,
        Err(fault) => return unread(fault),
    };
    let text = match shown_lines(alloc, input.as_slice()) {
        Ok(text) => text,
        Err(TextFault::NotHex(line)) => return Ending::Refused(line),
        Err(TextFault::Memory) => return Ending::Memory,
    };
    match write_all(sink, text.as_bytes()) {
        Ok(()) => Ending::Done,
        Err(fault) => Ending::WriteFault(fault.taken),
    }
}

/// The ending of verdicts that were written, where this line is the first refused.
fn verdict_ending(refused: Option<u64>) -> Ending
    ensures { result ≡ verdict_ending refused }
{
    match refused {
        Some(line) => Ending::CheckFailed(line),
        None => Ending::Done,
    }
}

/// Judges hex lines.
fn check<S: Source, K: Sink>(alloc: Global, source: &mut S, sink: &mut K) -> Ending
    ensures { CheckEnds (seen S.left S.faults source.old source.new) (seen K.taken K.faults sink.old sink.new) result }
{
    let input = match read_all(alloc, source) {
        Ok(input) => input,
        Err(fault) => return unread(fault),
    };
    let verdicts = match checked_lines(alloc, input.as_slice()) {
        Ok(verdicts) => verdicts,
        Err(TextFault::NotHex(line)) => return Ending::Refused(line),
        Err(TextFault::Memory) => return Ending::Memory,
    };
    match write_all(sink, verdicts.text.as_bytes()) {
        Ok(()) => verdict_ending(verdicts.refused),
        Err(fault) => Ending::WriteFault(fault.taken),
    }
}

/// Writes the texts of what came of a scenario, and tells how the run ended, with the history in any case
/// where there was a world.
fn finish<K: Sink>(simulated: Simulated, sink: &mut K) -> Outcome
    ensures { (ending : Ending) × EndsAs (seen K.taken K.faults sink.old sink.new) simulated ending × (result ≡ outcome_of ending (journal_in simulated)) }
{
    match simulated {
        Simulated::Refused(place) => Ending::Refused(place).outcome(None),
        Simulated::Unmade => Ending::Memory.outcome(None),
        Simulated::Halted(journal) => Ending::Memory.outcome(Some(journal)),
        Simulated::Ran {
            ending,
            journal,
            out,
        } => match write_all(sink, out.as_slice()) {
            Ok(()) => ending.outcome(Some(journal)),
            Err(fault) => Ending::WriteFault(fault.taken).outcome(Some(journal)),
        },
    }
}

/// Does what a scenario asks for.
fn run<S: Source, K: Sink, Z: Sealer>(
    alloc: Global,
    source: &mut S,
    sink: &mut K,
    sealer: &Z,
) -> Outcome
    ensures outcome { (words : List (List ℕ)) → IsTask words IsSimulate → IsOutcome words (seen S.left S.faults source.old source.new) (seen K.taken K.faults sink.old sink.new) (Z.text sealer.now) result }
    ensures safe { IsSafeIf (Z.text sealer.now) result.journal }
{
    let input = match read_all(alloc, source) {
        Ok(input) => input,
        Err(fault) => return unread(fault).outcome(None),
    };
    finish(simulate(alloc, input.as_slice(), sealer), sink)
}

/// Does what the words ask for: reads the source to its end, and writes to the sink.
///
/// - `decode` reads hex lines and writes one shown text a line.
/// - `check` reads hex lines and writes one verdict a line: `ok` and the number of octets, or the
///   refusal; a line is refused exactly where `decode` shows it so.
/// - `run` reads a scenario, and writes the journal of all steps and then the report. What is written
///   is the text of the one legal history that the scenario's commands make with this sealer, up to
///   the first frame that opens and was never booked; that history is safe.
///
/// Nothing is written before the whole input was read and the whole text made. Where the words are no
/// command, nothing is read either. See [`Outcome`] for how a run ends, and when.
pub fn mld_run<S: Source, K: Sink, Z: Sealer>(
    alloc: Global,
    words: &[String],
    source: &mut S,
    sink: &mut K,
    sealer: &Z,
) -> Outcome
    ensures outcome { IsOutcome (map string_bytes words.now) (seen S.left S.faults source.old source.new) (seen K.taken K.faults sink.old sink.new) (Z.text sealer.now) result }
    ensures safe { IsSafeIf (Z.text sealer.now) result.journal }
{
    match task_of(words) {
        Some(Task::Decode) => decode(alloc, source, sink).outcome(None),
        Some(Task::Check) => check(alloc, source, sink).outcome(None),
        Some(Task::Simulate) => run(alloc, source, sink, sealer),
        None => Ending::Usage.outcome(None),
    }
}
