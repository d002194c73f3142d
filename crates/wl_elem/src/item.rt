//! Items of a list that is cut into pieces.

use crate::bytes::Bytes;

/// An item: its ID, and the octets of its pieces, joined. Of an element of ID 255 they begin with the
/// Element ID Extension.
#[derive(Debug, Drop)]
pub struct Item {
    /// The ID of its first piece, which isn't a Fragment's.
    pub id: u8,
    /// The octets of its pieces, joined.
    pub octets: Bytes,
}
