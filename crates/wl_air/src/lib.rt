//! Two ends and what they acknowledged, and the history of what they do.
#![tactic(auto)]

mod air;
mod fault;
mod heard;
mod records;
mod script;
mod world;

pub use air::Air;
pub use fault::StepFault;
pub use records::Records;
pub use world::World;
