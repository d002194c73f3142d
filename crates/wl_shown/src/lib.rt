//! Hex lines, and the line that is shown for each.
#![tactic(auto)]

mod action;
mod association;
mod check;
mod decode;
mod frame;
mod item;
mod laws;
mod line;
mod mapping;
mod multi_link;
mod show;
mod shown;

pub use check::{Verdicts, checked_lines};
pub use decode::{TextFault, shown_lines};
pub use laws::{
    answers_made, answers_once, judged_is_not_bad, judged_once, refused_once, shown_is_not_bad,
    shown_once, text_is_judged_or_bad, text_is_shown_or_bad,
};
pub use line::Kind;
