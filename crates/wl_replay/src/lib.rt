//! What a receiver of protected frames keeps: the keys that it holds and, for each lane, the pair of
//! key and packet number below which nothing is taken again.
#![tactic(auto)]

mod keys;
mod replay;

pub use keys::KeyRing;
pub use replay::{Pair, ReplayGuard};
