//! The TID-To-Link Mapping element, and mappings of TIDs to links.
#![tactic(auto)]

mod decode;
mod encode;
mod laws;
mod mapping;
mod ttlm;

pub use decode::decode_ttlm;
pub use encode::encode_ttlm;
pub use laws::{read_once, read_or_refused, round_trip, spelled_once};
pub use mapping::{Mapping, a_mapping_passes, is_valid};
pub use ttlm::Ttlm;
