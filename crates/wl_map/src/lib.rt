//! The negotiation of TID-to-link mappings: what an end asks, answers and takes, and the mapping that
//! it has agreed on in each direction.
#![tactic(auto)]

mod agreed;
mod change;
mod laws;
mod map_end;

pub use change::{Change, MapAsk, MapRefusal};
pub use laws::{an_asker_waits, both_agree, each_tid_has_a_link, valid_exactly};
pub use map_end::MapEnd;
