//! Keys.

/// A key of an association: the base is the same for all of them, and the number counts them.
#[derive(Clone, Copy, Debug, PartialEq, Eq)]
pub struct Key {
    /// What all keys of an association have in common.
    pub base: [u8; 16],
    /// Which of them it is; its key ID is the number's lowest bit.
    pub number: u16,
}
