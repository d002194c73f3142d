//! How a run of the program ends.

ghost use Rattle.std.specs.Prelude.{◌≡◌};
ghost use Rattle.wl_top.specs.Run.{outcome_of};

use wl_history::Journal;

/// How a run of the program ended.
///
/// | status | comes | `place` |
/// |---|---|---|
/// | 0 done | the input was read to its end, all was done and written | 0 |
/// | 1 usage | exactly where the words are no command; source and sink are untouched | 0 |
/// | 2 refused | exactly where the input of `run` is no scenario, or a line of `decode` or `check` no hex line; nothing is written | the command's or the line's number, from 1; 0 for what isn't a command |
/// | 3 read fault | exactly where the source's count of faults rose; nothing is written | 0 |
/// | 4 write fault | exactly where the sink's count of faults rose; the first bytes are written | how many |
/// | 5 forged | exactly at the first frame that opens and that its sender never booked; the texts of the steps before it are written | how many steps |
/// | 7 check failed | exactly where a line of `check` is refused; all verdicts are written | the first such line's number, from 1 |
/// | 8 too long | exactly where more than 16,777,216 bytes were read; nothing is written | 16,777,217 |
/// | 9 memory | at any time before the first byte is written; nothing is written | 0 |
///
/// The causes are met in the order 1, 3, 8, 2, 5, 7, 4. A count of faults that stood at 2^64 - 1 before the run
/// can't rise, and stays there at every status.
#[derive(Debug, Drop)]
pub struct Outcome {
    pub status: u8,
    pub place: u64,
    /// The history that `run` made: None for `decode`, `check` and the statuses 1, 2, 3 and 8. With status 9
    /// it has all steps that were made where there was a world, and is None where there was none.
    pub journal: Option<Journal>,
}

/// The endings that an outcome tells apart.
#[derive(Clone, Copy, Debug, PartialEq, Eq)]
pub enum Ending {
    /// All was done and written.
    Done,
    /// The words are no command.
    Usage,
    /// The line or the command of this number, counted from 1, is none; 0 for the rest of a scenario.
    Refused(u64),
    /// A read failed.
    ReadFault,
    /// A write failed after so many bytes.
    WriteFault(u64),
    /// After so many steps a frame opened that its sender never booked.
    Forged(u64),
    /// The line of this number, counted from 1, is the first that `check` refuses.
    CheckFailed(u64),
    /// More bytes came than may be read; so many were read.
    TooLong(u64),
    /// There was no memory.
    Memory,
}

impl Ending {
    /// The outcome that tells it, with a journal.
    pub fn outcome(self, journal: Option<Journal>) -> Outcome
        ensures { result ≡ outcome_of self journal }
    {
        let (status, place) = match self {
            Ending::Done => (0, 0),
            Ending::Usage => (1, 0),
            Ending::Refused(place) => (2, place),
            Ending::ReadFault => (3, 0),
            Ending::WriteFault(taken) => (4, taken),
            Ending::Forged(count) => (5, count),
            Ending::CheckFailed(line) => (7, line),
            Ending::TooLong(count) => (8, count),
            Ending::Memory => (9, 0),
        };
        Outcome {
            status,
            place,
            journal,
        }
    }
}
