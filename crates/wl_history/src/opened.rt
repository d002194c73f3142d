//! What a frame opens to.

use wl_elem::Bytes;
use wl_frame::{Aad, Key};

/// What a protected frame was opened under, and the body it opened to (IEEE Std 802.11, 12.5.2).
#[derive(Debug, Drop)]
pub struct Opened {
    /// The key.
    pub key: Key,
    /// The nonce: priority, sender's MLD address and packet number.
    pub nonce: [u8; 13],
    /// The additional authenticated data.
    pub aad: Aad,
    /// The body.
    pub body: Bytes,
}
