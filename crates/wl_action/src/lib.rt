//! Bodies of Action frames: Protected EHT and Block Ack.
#![tactic(auto)]

mod action;
mod code;
mod decode;
mod encode;
mod head;
mod known;
mod laws;
mod list;
mod statuses;
mod well_formed;

pub use action::Action;
pub use decode::decode_action;
pub use encode::encode_action;
pub use known::{KnownValue, decode_known};
pub use laws::{
    known_read_once, known_read_or_refused, read_once, read_or_refused, round_trip, spelled_once,
};
pub use statuses::{LinkStatus, LinkStatuses};
