//! What a receiver has of a frame.

use wl_elem::Bytes;
use wl_number::Numbers;

/// A body that was received and waits for its turn, with the numbers of its booking at the sender.
#[derive(Debug, Drop)]
pub struct Arrival {
    /// Position in the sender's queue, key number and packet number.
    pub numbers: Numbers,
    /// The body, opened.
    pub body: Bytes,
}
