//! What a history of two ends is: its commands, answers and steps, and what each means.
#![tactic(auto)]

mod ack;
mod arrival;
mod command;
mod cursor;
mod hand;
mod laws;
mod lists;
mod opened;
mod outcome;
mod script;
mod script_laws;
mod setup;
mod start;
mod step;

pub use ack::{Ack, Bar};
pub use arrival::Arrival;
pub use command::{Command, Machine};
pub use cursor::Cursor;
pub use hand::Hand;
pub use laws::{
    a_booking_is_found, a_retry_is_the_same, a_turn_begins_anew, an_asked_mapping_is_a_message,
    an_end_keeps, another_number, every_history_is_safe, management_goes_up_at_once, one_answer,
    one_history, what_is_done_stays_down, what_is_judged_is_plain, what_opens_fits, words_are_told,
};
pub use lists::{Positions, PositionsRoom, SequenceNumbers};
pub use opened::Opened;
pub use outcome::{KeptWhy, Outcome};
pub use script::{Item, Plain, Plains, Script, Stage};
pub use script_laws::played_once;
pub use setup::Setup;
pub use start::{EndStart, LinkStart, LinkStarts, Start};
pub use step::{Journal, Step, Steps};
