//! Marks of positions.

/// What an originator knows of a position.
#[derive(Clone, Copy, Debug, PartialEq, Eq)]
pub enum Mark {
    /// It isn't booked.
    Free,
    /// It is booked and not done.
    Booked,
    /// It was booked, and was acknowledged or given up.
    Done,
}
