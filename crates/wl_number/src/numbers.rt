//! The numbers of a protected frame, and why there are none.

ghost use Rattle.std.specs.Prelude.{◌≡◌};
ghost use Rattle.wl_number.specs.declared.numbers.BookFault.TheVariants.{Memory as NoMemory};

use wl_elem::Memory;

/// The numbers of one booking.
#[derive(Clone, Copy, Debug, PartialEq, Eq)]
pub struct Numbers {
    /// The position in the lane's queue, from 0.
    pub pos: u32,
    /// The number of the temporal key, from 0.
    pub key: u16,
    /// The packet number under this key, 1 to 2^48 - 1.
    pub pn: u64,
}

/// The last packet number of the key, 2^48 - 1, is used: only a new key gives numbers again.
#[derive(Clone, Copy, Debug, PartialEq, Eq)]
pub struct Spent;

/// Why numbers weren't booked.
#[derive(Clone, Copy, Debug, PartialEq, Eq)]
pub enum BookFault {
    /// The numbers break the order of the bookings.
    Wasted {
        /// The numbers that were handed in.
        presented: Numbers,
        /// The booking that they break it with: of several the one of least key and packet number.
        kept: Numbers,
    },
    /// There was no memory for one booking more.
    Memory,
}

impl From<Memory> for BookFault {
    ghost from_gives = { λ _ e. e ≡ NoMemory };

    fn from(_e: Memory) -> BookFault {
        BookFault::Memory
    }
}
