//! Why no scenario was read.

/// Why a text gave no scenario.
#[derive(Clone, Copy, Debug, PartialEq, Eq)]
pub enum SceneFault {
    /// The text isn't a scenario.
    Refused {
        /// Where: 0 where it isn't JSON, where a member outside the commands is wrong and where the
        /// commands count as more than 65,536, loops expanded; else the number of the first wrong
        /// command, counted from 1, a loop before the commands in its body and each of these once.
        place: u64,
    },
    /// There was no memory for the scenario. It says nothing of the text.
    Memory,
}

/// Why a value gave no command.
#[derive(Clone, Copy, Debug, PartialEq, Eq)]
pub enum Stop {
    /// It isn't a command.
    Wrong,
    /// There was no memory for it.
    NoMemory,
}
