//! Acknowledgements, and requests of acknowledgement.

use crate::lists::SequenceNumbers;
use wl_elem::Lane;

/// What a receiver acknowledges of a lane (IEEE Std 802.11, 9.3.1.8).
#[derive(Debug, Drop)]
pub struct Ack {
    /// The lane.
    pub lane: Lane,
    /// The window's start, modulo 4,096.
    pub start: u16,
    /// The sequence numbers that are stored behind the start, in window order.
    pub stored: SequenceNumbers,
}

/// A sender's request to acknowledge a lane, which asks the receiver to move its window (IEEE Std 802.11,
/// 9.3.1.7).
#[derive(Clone, Copy, Debug, PartialEq, Eq)]
pub struct Bar {
    /// The lane.
    pub lane: Lane,
    /// The first position that isn't done, modulo 4,096.
    pub start: u16,
}
