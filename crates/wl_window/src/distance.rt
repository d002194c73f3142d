//! Sequence numbers of 12 bits.

ghost use Rattle.std.specs.Prelude.{◌≡◌, ◌<◌};
ghost use Rattle.wl_window.specs.Numbering.{distance};

/// How far ahead of a full number the next one with these 12 bits is, below 4096.
pub fn distance_to(start: u32, number: u16) -> u16
    ensures value { result ≡ distance start number }
    ensures short { result < 4096 }
{
    ((u32::from(number) + 4096 - start % 4096) % 4096) as u16
}
