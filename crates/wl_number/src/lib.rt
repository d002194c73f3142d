//! The numbers that an end gives its protected frames: a position in the lane, a key number and a
//! packet number; and the book of the numbers that are given.
#![tactic(auto)]

mod bookings;
mod laws;
mod numbers;
mod places;
mod state;

pub use bookings::Bookings;
pub use laws::{
    a_draw_is_next, adds_one, booked_once, highest_breaks_none, in_one_order, in_pair_order,
    pairs_in_order, stands_exactly,
};
pub use numbers::{BookFault, Numbers, Spent};
pub use state::NumberState;
