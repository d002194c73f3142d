//! Both windows of a block ack agreement: the recipient's reordering and the originator's positions.
#![tactic(auto)]

mod distance;
mod laws;
mod mark;
mod marks;
mod numbers12;
mod origin;
mod refusal;
mod reorder;
mod slot;
mod ups;

pub use laws::{
    booked_after_ack, booked_after_booking, booked_after_giving_up, done_after_ack,
    done_after_giving_up, full_number, nothing_lost, order_kept, requested_near, requested_sound,
    stored_near, stored_sound,
};
pub use mark::Mark;
pub use numbers12::Numbers12;
pub use origin::Origin;
pub use refusal::{ArriveRefusal, MoveRefusal, OriginRefusal};
pub use reorder::Reorder;
pub use ups::Ups;
