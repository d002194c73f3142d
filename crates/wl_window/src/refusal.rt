//! Why a call is refused.

/// Why a frame's item isn't stored. It comes back.
#[derive(Debug, Drop, PartialEq, Eq)]
pub enum ArriveRefusal<T> {
    /// The number is behind the window: the next full number with its 12 bits is 2,048 or more ahead
    /// of the start.
    OldNumber(T),
    /// The number is stored already.
    Double(T),
}

/// Why no position is let go.
#[derive(Clone, Copy, Debug, PartialEq, Eq)]
pub enum OriginRefusal {
    /// As many were let go as are queued.
    NothingQueued,
    /// Those let go and the base are the size of the window apart.
    WindowFull,
}

/// Why the base doesn't move.
#[derive(Clone, Copy, Debug, PartialEq, Eq)]
pub enum MoveRefusal {
    /// A lower position isn't booked.
    NotBooked,
    /// The base is there or further.
    Behind,
}
