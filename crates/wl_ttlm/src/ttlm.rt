//! The value of a TID-To-Link Mapping element.

ghost use Rattle.std.specs.Prelude.{◌≡◌, ◌↔◌, ◌+◌, ◌≤◌, ◌⊎◌, IsOk, IsTrue, IfOk, length};
ghost use Rattle.std.specs.List.{AllByRecursion};
ghost use Rattle.wl_elem.specs.Fields.{Fits};
ghost use Rattle.wl_ttlm.specs.Ttlm.{IsTtlm, presence, presence_in, map_width, mappings, spelling};
ghost use Rattle.wl_ttlm.specs.Reading.{MapFits};

use wl_elem::{BODY_LIMIT, Bytes, Memory, short_len, u8_len, u16_len, u24_len};

/// A TID-To-Link Mapping element (IEEE Std 802.11be, 9.4.2.314).
///
/// With `default` set every TID is on every link set up, and all `maps` are None.
#[derive(Debug, Drop)]
pub struct Ttlm {
    /// 0 downlink, 1 uplink, 2 both.
    pub direction: u8,
    /// The default mapping.
    pub default: bool,
    /// The two reserved bits of the control octet, 0 to 3.
    pub spare: u8,
    /// Link mapping size: one octet a mapping, else two.
    pub narrow: bool,
    /// Mapping switch time, in TUs.
    pub switch: Option<u16>,
    /// Expected duration, in TUs, below 2^24.
    pub duration: Option<u32>,
    /// The links of each TID from 0 to 7, bit n for link n; None where it has no mapping here.
    pub maps: [Option<u16>; 8],
    /// What stands behind the known fields.
    pub tail: Bytes,
}

impl Ttlm {
    ghost use Rattle.wl_ttlm.specs.Ttlm.{IsWritable};

    /// Whether some body of an element has this value: exactly where `encode_ttlm` takes it. The
    /// direction is below 3, `spare` below 4, the duration below 2^24, each mapping below 256 where
    /// `narrow`, with `default` set there is no mapping, and the body has at most 16,777,216 octets.
    /// It takes no memory and always answers Ok.
    pub fn well_formed(&self) -> Result<bool, Memory>
        ensures answers { IsOk result }
        ensures exact { IfOk result (λ answer. IsTrue answer ↔ IsWritable self.now) }
    {
        let room = BODY_LIMIT - fields_len(self);
        Ok(fields_fit(self) && self.tail.as_slice().len() <= room)
    }
}

/// How many octets a mapping takes.
pub fn map_width(narrow: bool) -> usize
    ensures value { result ≡ map_width narrow }
    ensures one_or_two { (result ≡ 1) ⊎ (result ≡ 2) }
{
    if narrow { 1 } else { 2 }
}

/// The presence octet.
fn presence_of(maps: &[Option<u16>; 8]) -> u8
    ensures { result ≡ presence maps.now }
{
    let mut bits = 0;
    'maps: for tid in (0..8).rev() {
        bits = 2 * bits + u8::from(maps[tid].is_some());
    }
    bits
}

/// The presence octet, unless the default mapping stands for it.
pub fn presence_in(default: bool, maps: &[Option<u16>; 8]) -> Option<u8>
    ensures { result ≡ presence_in default maps.now }
{
    if default {
        return None;
    }
    Some(presence_of(maps))
}

/// The octets that the mappings take.
fn maps_len(width: usize, maps: &[Option<u16>; 8]) -> usize
    requires { (width ≡ 1) ⊎ (width ≡ 2) }
    ensures len { result ≡ length (mappings width maps.now) }
    ensures short { result ≤ 16 }
{
    let mut len = 0;
    'maps: for map in maps {
        len += short_len(width, *map);
    }
    len
}

/// The octets before the tail.
fn fields_len(value: &Ttlm) -> usize
    ensures len { result + length value.now.tail ≡ length (spelling value.now) }
    ensures short { result ≤ 23 }
    ensures switch { Fits 2 value.now.switch }
{
    1 + u8_len(presence_in(value.default, &value.maps))
        + u16_len(value.switch)
        + u24_len(value.duration)
        + maps_len(map_width(value.narrow), &value.maps)
}

/// Whether a duration has room in three octets.
fn duration_fits(duration: Option<u32>) -> bool
    ensures { IsTrue result ↔ Fits 3 duration }
{
    match duration {
        Some(n) => n < 1 << 24,
        None => true,
    }
}

/// Whether a mapping has room, and with `default` set there is none.
fn map_fits(default: bool, narrow: bool, map: Option<u16>) -> bool
    ensures { IsTrue result ↔ MapFits default narrow map }
{
    match map {
        Some(n) => !default && (!narrow || n < 256),
        None => true,
    }
}

/// Whether the mappings have room, and with `default` set there are none.
fn maps_fit(default: bool, narrow: bool, maps: &[Option<u16>; 8]) -> bool
    ensures eight { length maps.now ≡ 8 }
    ensures fit { IsTrue result ↔ AllByRecursion (MapFits default narrow) maps.now }
{
    maps.iter().all(|map| map_fits(default, narrow, *map))
}

/// Whether each field has room, and with `default` set there are no mappings.
fn fields_fit(value: &Ttlm) -> bool
    ensures { Fits 2 value.now.switch → (IsTrue result ↔ IsTtlm value.now) }
{
    if value.direction > 2 {
        return false;
    }
    if value.spare > 3 {
        return false;
    }
    if !duration_fits(value.duration) {
        return false;
    }
    maps_fit(value.default, value.narrow, &value.maps)
}
