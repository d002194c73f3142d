//! Hands.

use wl_elem::Lane;
use wl_number::Numbers;

/// What a thread holds at an end on the way to a frame.
#[derive(Clone, Copy, Debug, PartialEq, Eq)]
pub enum Hand {
    /// Nothing.
    Empty,
    /// Room in the window of a lane, which has no numbers yet.
    Reserve(Lane),
    /// A booking of a lane: its position, key number and packet number.
    Booking(Lane, Numbers),
}
