//! Scenarios that are read, and the texts of journals and reports.
#![tactic(auto)]

mod account;
mod commands;
mod entries;
mod fault;
mod field;
mod first;
mod head;
mod items;
mod journal;
mod laws;
mod line;
mod links;
mod member;
mod numbers;
mod object;
mod policy;
mod report;
mod runs;
mod scenario;
mod scene;
mod totals;

pub use account::{end_totals, report_text};
pub use fault::SceneFault;
pub use journal::journal_text;
pub use laws::{read_once, read_or_refused, reported_once, runs_are_maximal, totals_are_reported};
pub use report::report_line;
pub use scenario::Scenario;
pub use scene::read_scenario;
pub use totals::{Released, Totals};
