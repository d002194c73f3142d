//! Scenarios.

use wl_history::{Script, Start};

/// What two ends start with, and what they are told to do.
#[derive(Debug, Drop)]
pub struct Scenario {
    /// What both ends start with.
    pub start: Start,
    /// The commands, in order: at most 65,536, loops expanded.
    pub before: Script,
}
