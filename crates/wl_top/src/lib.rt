//! The top calls of the program.
#![tactic(auto)]

mod ending;
mod laws;
mod run;
mod simulate;
mod status;

pub use ending::{Ending, Outcome};
pub use laws::{faults_told, one_ending, one_run, read_or_too_long, settled, some_ending};
pub use run::{Task, mld_run, task_of};
pub use status::{write_reason, write_status};
