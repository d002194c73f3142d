//! Inheritance of elements in per-STA profiles.
#![tactic(auto)]

mod copies;
mod decode;
mod encode;
mod expanded;
mod identities;
mod laws;
mod non_inheritance;
mod shrunk;

pub use decode::decode_non;
pub use encode::encode_non;
pub use expanded::expand;
pub use laws::{
    expanded_by_identity, expanded_once, expanded_or_refused, read_once, read_or_refused,
    round_trip, shrunk_expands_to_full, spelled_once,
};
pub use non_inheritance::NonInheritance;
pub use shrunk::{ShrinkFault, has_element, shrink};
