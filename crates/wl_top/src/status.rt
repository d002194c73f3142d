//! The lines that tell how a run ended.

ghost use Rattle.std.specs.Prelude.{◌≡◌, ◌+◌, ◌≤◌, ◌++◌, length, OnOk, IfErr};
ghost use Rattle.std.specs.Fmt.{decimal};
ghost use Rattle.wl_io.specs.Seen.{seen};
ghost use Rattle.wl_io.specs.Writing.{IsWriteFault, IsWritten};
ghost use Rattle.wl_top.specs.Status.{reason, refused, refused_scenario, status_line};

use crate::run::Task;
use arrayvec::ArrayString;
use itoa::Buffer;
use wl_io::{Sink, WriteFault, write_all};

/// Writes `mld: status S place P` and a line end, with both numbers in decimal digits.
///
/// Ok where the sink took the whole line, and its count of faults is as it was. Otherwise that count
/// rose, and the sink took the first `taken` bytes of the line. It takes no memory.
pub fn write_status<K: Sink>(status: u8, place: u64, sink: &mut K) -> Result<(), WriteFault>
    ensures count { K.faults sink.old ≤ K.faults sink.new }
    ensures ok { OnOk result (IsWritten (seen K.taken K.faults sink.old sink.new) (status_line status place)) }
    ensures fault { IfErr result (λ e. IsWriteFault (seen K.taken K.faults sink.old sink.new) (status_line status place) e.taken) }
{
    let mut digits = Buffer::new();
    let mut line = ArrayString::<128>::new();
    line.push_str("mld: status ");
    line.push_str(digits.format(status));
    line.push_str(" place ");
    line.push_str(digits.format(place));
    line.push_str("\n");
    write_all(sink, line.as_str().as_bytes())
}

/// What a status and its place mean in words, as it stands behind the line of the status.
type Reason = ArrayString<512>;

/// A text as it stands.
fn plain(text: &str) -> Reason
    requires { length text.now ≤ 512 }
    ensures { result.bytes ≡ text.now }
{
    let mut line = Reason::new();
    line.push_str(text);
    line
}

/// A number in decimal digits between two texts.
fn around(front: &str, number: u64, back: &str) -> Reason
    requires { length front.now + length back.now ≤ 256 }
    ensures { result.bytes ≡ front.now ++ decimal number ++ back.now }
{
    let mut digits = Buffer::new();
    let mut line = Reason::new();
    line.push_str(front);
    line.push_str(digits.format(number));
    line.push_str(back);
    line
}

/// What status 2 means of a scenario.
fn refused_scenario(place: u64) -> Reason
    ensures { result.bytes ≡ refused_scenario place }
{
    if place == 0 {
        return plain("the input is no scenario: what is wrong stands outside its commands\n");
    }
    around(
        "command ",
        place,
        " of the scenario is not one that docs/FORMATS.md allows\n",
    )
}

/// What status 2 means of a task.
fn refused(task: Option<Task>, place: u64) -> Reason
    ensures { result.bytes ≡ refused task place }
{
    match task {
        Some(Task::Simulate) => refused_scenario(place),
        _ => around("line ", place, " is no hex line\n"),
    }
}

/// What a status and its place mean, for the task that the words asked for.
fn reason(task: Option<Task>, status: u8, place: u64) -> Reason
    ensures { result.bytes ≡ reason task status place }
{
    match status {
        1 => plain(
            "these words are no command; the commands are:\n  decode  shows each line of hex on standard input\n  check   judges each line of hex on standard input\n  run     does what the scenario on standard input asks for\n",
        ),
        2 => refused(task, place),
        3 => plain("reading the input failed\n"),
        4 => around("writing failed after ", place, " bytes\n"),
        5 => around(
            "after ",
            place,
            " steps a frame opened that its sender never booked\n",
        ),
        7 => around("line ", place, " is the first that is refused\n"),
        8 => plain("the input has more than 16777216 bytes\n"),
        9 => plain("there was not enough memory\n"),
        _ => plain(""),
    }
}

/// Writes what a status and its place mean in words, for the task that the words asked for: one line,
/// and at status 1 the commands behind it, a line each. Nothing for status 0, or a number that is no status.
///
/// Ok where the sink took the whole text, and its count of faults is as it was. Otherwise that count
/// rose, and the sink took the first `taken` bytes of the text. It takes no memory.
pub fn write_reason<K: Sink>(
    task: Option<Task>,
    status: u8,
    place: u64,
    sink: &mut K,
) -> Result<(), WriteFault>
    ensures count { K.faults sink.old ≤ K.faults sink.new }
    ensures ok { OnOk result (IsWritten (seen K.taken K.faults sink.old sink.new) (reason task status place)) }
    ensures fault { IfErr result (λ e. IsWriteFault (seen K.taken K.faults sink.old sink.new) (reason task status place) e.taken) }
{
    let line = reason(task, status, place);
    write_all(sink, line.as_str().as_bytes())
}
