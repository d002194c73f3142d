//! The Multi-Link element.
#![tactic(auto)]

mod basic;
mod change;
mod decode;
mod encode;
mod info;
mod laws;
mod multi_link;
mod profile;
mod reconf;
mod subs;

pub use basic::{Basic, BasicSub, BasicSubs, Common};
pub use change::LinkChange;
pub use decode::decode_ml;
pub use encode::encode_ml;
pub use laws::{read_once, read_or_refused, round_trip, spelled_once};
pub use multi_link::MultiLink;
pub use profile::Profile;
pub use reconf::{Reconf, ReconfSub, ReconfSubs};
