//! A place of a reordering window.

/// An item that is stored, and its full number.
#[derive(Debug, Drop)]
pub(crate) struct Slot<T> {
    pub number: u32,
    pub item: T,
}
