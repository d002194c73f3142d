//! One end of an association: a multi-link device that queues, numbers, seals and sends bodies, and
//! opens, orders and acknowledges those of its peer.
#![tactic(auto)]

mod bodies;
mod end;
mod entries;
mod flight;
mod frames;
mod hands;
mod heard;
mod lane_parts;
mod lanes;
mod links;
mod machines;
mod peek;
mod react;

pub use end::End;
pub use peek::Peek;
