//! Fields in order: each is there or not, and takes so many octets where it is (IEEE Std 802.11,
//! 9.2.2). Numbers have their lowest octet first.

ghost use Rattle.std.specs.Prelude.{◌≡◌, ◌↔◌, ◌+◌, ◌≤◌, ◌<◌, ◌⊎◌, ◌++◌, length, take, drop, IfSome, IsNone, OnOk};
ghost use Rattle.wl_elem.specs.Bits.{has_bit};
ghost use Rattle.wl_elem.specs.Octets.{octets_of};
ghost use Rattle.wl_elem.specs.Fields.{field, octets_in, Fits, width_if, field_at, after_field, number_in, word_at, address_at, first_cut};

use crate::address::MacAddr;
use crate::bytes::Bytes;
use crate::fault::Memory;

/// Whether the bit of this weight is set.
pub fn has_bit(number: u16, weight: u16) -> bool
    requires { 0 < weight }
    ensures { result ≡ has_bit number weight }
{
    number / weight % 2 == 1
}

/// How many octets a field of this width takes, where it is there.
pub fn width_if(there: bool, width: usize) -> usize
    ensures exact { result ≡ width_if there width }
    ensures bound { result ≤ width }
{
    if there { width } else { 0 }
}

/// How many octets are left at the first of fields of these widths that isn't whole, where there are
/// `len` octets.
pub fn first_cut(widths: &[usize], len: usize) -> Option<usize>
    ensures { result ≡ first_cut widths.now len }
{
    let mut left = len;
    'widths: for width in widths {
        if left < *width {
            return Some(left);
        }
        left -= *width;
    }
    None
}

/// The number of two octets at this place.
pub fn u16_at(octets: &[u8], place: usize) -> u16
    requires { place + 2 ≤ length octets.now }
    ensures { result ≡ word_at octets.now place }
{
    u16::from_le_bytes([octets[place], octets[place + 1]])
}

/// The number of the first two octets, and what follows it. None where they aren't whole.
pub fn first_u16(octets: &[u8]) -> Option<(u16, &[u8])>
    ensures some { IfSome result (λ x. octets.now ≡ octets_of 2 x.0 ++ x.1.now) }
    ensures none { IsNone result ↔ (length octets.now < 2) }
{
    match octets {
        [low, high, rest @ ..] => Some((u16::from_le_bytes([*low, *high]), rest)),
        _ => None,
    }
}

/// The address at this place.
pub fn mac_at(octets: &[u8], place: usize) -> MacAddr
    requires { place + 6 ≤ length octets.now }
    ensures { result ≡ address_at octets.now place }
{
    MacAddr::new([
        octets[place],
        octets[place + 1],
        octets[place + 2],
        octets[place + 3],
        octets[place + 4],
        octets[place + 5],
    ])
}

/// A field of one octet, where it is there, and what follows it.
pub fn u8_if(there: bool, octets: &[u8]) -> (Option<u8>, &[u8])
    requires { width_if there 1 ≤ length octets.now }
    ensures field { result.0 ≡ number_in (field_at there 1 octets.now) }
    ensures after { result.1.now ≡ after_field there 1 octets.now }
    ensures left { length result.1.now + width_if there 1 ≡ length octets.now }
{
    if !there {
        return (None, octets);
    }
    match octets {
        [low, after @ ..] => (Some(*low), after),
        [] => unreachable!(),
    }
}

/// A field of two octets, where it is there, and what follows it.
pub fn u16_if(there: bool, octets: &[u8]) -> (Option<u16>, &[u8])
    requires { width_if there 2 ≤ length octets.now }
    ensures field { result.0 ≡ number_in (field_at there 2 octets.now) }
    ensures after { result.1.now ≡ after_field there 2 octets.now }
    ensures left { length result.1.now + width_if there 2 ≡ length octets.now }
{
    if !there {
        return (None, octets);
    }
    match octets {
        [low, high, after @ ..] => (Some(u16::from_le_bytes([*low, *high])), after),
        _ => unreachable!(),
    }
}

/// A field of three octets, where it is there, and what follows it.
pub fn u24_if(there: bool, octets: &[u8]) -> (Option<u32>, &[u8])
    requires { width_if there 3 ≤ length octets.now }
    ensures field { result.0 ≡ number_in (field_at there 3 octets.now) }
    ensures after { result.1.now ≡ after_field there 3 octets.now }
    ensures left { length result.1.now + width_if there 3 ≡ length octets.now }
{
    if !there {
        return (None, octets);
    }
    match octets {
        [low, middle, high, after @ ..] => {
            (Some(u32::from_le_bytes([*low, *middle, *high, 0])), after)
        }
        _ => unreachable!(),
    }
}

/// A field of eight octets, where it is there, and what follows it.
pub fn u64_if(there: bool, octets: &[u8]) -> (Option<u64>, &[u8])
    requires { width_if there 8 ≤ length octets.now }
    ensures field { result.0 ≡ number_in (field_at there 8 octets.now) }
    ensures after { result.1.now ≡ after_field there 8 octets.now }
    ensures left { length result.1.now + width_if there 8 ≡ length octets.now }
{
    if !there {
        return (None, octets);
    }
    match octets {
        [a, b, c, d, e, f, g, h, after @ ..] => {
            let n = u64::from_le_bytes([*a, *b, *c, *d, *e, *f, *g, *h]);
            (Some(n), after)
        }
        _ => unreachable!(),
    }
}

/// A number in one octet or in two, where it is there, and what follows it.
pub fn short_if(there: bool, width: usize, octets: &[u8]) -> (Option<u16>, &[u8])
    requires one_or_two { (width ≡ 1) ⊎ (width ≡ 2) }
    requires whole { width_if there width ≤ length octets.now }
    ensures field { result.0 ≡ number_in (field_at there width octets.now) }
    ensures after { result.1.now ≡ after_field there width octets.now }
    ensures left { length result.1.now + width_if there width ≡ length octets.now }
{
    if width == 2 {
        return u16_if(there, octets);
    }
    let (field, after) = u8_if(there, octets);
    match field {
        Some(n) => (Some(u16::from(n)), after),
        None => (None, after),
    }
}

/// An address, where it is there, and what follows it.
pub fn mac_if(there: bool, octets: &[u8]) -> (Option<MacAddr>, &[u8])
    requires { width_if there 6 ≤ length octets.now }
    ensures field { result.0 ≡ field_at there 6 octets.now }
    ensures after { result.1.now ≡ after_field there 6 octets.now }
    ensures left { length result.1.now + width_if there 6 ≡ length octets.now }
{
    if !there {
        return (None, octets);
    }
    let (mac, after) = first_mac(octets);
    (Some(mac), after)
}

/// An address, and what follows it.
pub fn first_mac(octets: &[u8]) -> (MacAddr, &[u8])
    requires { 6 ≤ length octets.now }
    ensures field { result.0 ≡ take 6 octets.now }
    ensures after { result.1.now ≡ drop 6 octets.now }
    ensures left { length result.1.now + 6 ≡ length octets.now }
{
    match octets {
        [a, b, c, d, e, f, after @ ..] => (MacAddr::new([*a, *b, *c, *d, *e, *f]), after),
        _ => unreachable!(),
    }
}

/// How many octets a field of one octet takes, where it is there.
pub fn u8_len(value: Option<u8>) -> usize
    ensures exact { result ≡ length (field 1 value) }
    ensures bound { result ≤ 1 }
    ensures fits { Fits 1 value }
{
    width_if(value.is_some(), 1)
}

/// How many octets a field of two octets takes, where it is there.
pub fn u16_len(value: Option<u16>) -> usize
    ensures exact { result ≡ length (field 2 value) }
    ensures bound { result ≤ 2 }
    ensures fits { Fits 2 value }
{
    width_if(value.is_some(), 2)
}

/// How many octets a field of three octets takes, where it is there.
pub fn u24_len(value: Option<u32>) -> usize
    ensures exact { result ≡ length (field 3 value) }
    ensures bound { result ≤ 3 }
{
    width_if(value.is_some(), 3)
}

/// How many octets a field of eight octets takes, where it is there.
pub fn u64_len(value: Option<u64>) -> usize
    ensures exact { result ≡ length (field 8 value) }
    ensures bound { result ≤ 8 }
    ensures fits { Fits 8 value }
{
    width_if(value.is_some(), 8)
}

/// How many octets a number in one octet or in two takes, where it is there.
pub fn short_len(width: usize, value: Option<u16>) -> usize
    requires one_or_two { (width ≡ 1) ⊎ (width ≡ 2) }
    ensures exact { result ≡ length (field width value) }
    ensures bound { result ≤ 2 }
{
    width_if(value.is_some(), width)
}

/// How many octets an address takes, where it is there.
pub fn mac_len(value: Option<MacAddr>) -> usize
    ensures exact { result ≡ length (octets_in value) }
    ensures bound { result ≤ 6 }
    ensures address { IfSome value (λ octets. length octets ≡ 6) }
{
    match value {
        Some(mac) => mac.octets().len(),
        None => 0,
    }
}

/// Adds a field of one octet, where it is there.
pub fn put_u8(out: &mut Bytes, value: Option<u8>) -> Result<(), Memory>
    ensures { OnOk result (out.new ≡ out.old ++ field 1 value) }
{
    match value {
        Some(n) => out.push(n),
        None => Ok(()),
    }
}

/// Adds a field of two octets, where it is there.
pub fn put_u16(out: &mut Bytes, value: Option<u16>) -> Result<(), Memory>
    ensures { OnOk result (out.new ≡ out.old ++ field 2 value) }
{
    match value {
        Some(n) => out.extend(&n.to_le_bytes()),
        None => Ok(()),
    }
}

/// Adds a field of three octets, where it is there: the three lowest of the number.
pub fn put_u24(out: &mut Bytes, value: Option<u32>) -> Result<(), Memory>
    ensures { OnOk result (out.new ≡ out.old ++ field 3 value) }
{
    match value {
        Some(n) => {
            let [low, middle, high, _] = n.to_le_bytes();
            out.extend(&[low, middle, high])
        }
        None => Ok(()),
    }
}

/// Adds a field of eight octets, where it is there.
pub fn put_u64(out: &mut Bytes, value: Option<u64>) -> Result<(), Memory>
    ensures { OnOk result (out.new ≡ out.old ++ field 8 value) }
{
    match value {
        Some(n) => out.extend(&n.to_le_bytes()),
        None => Ok(()),
    }
}

/// Adds a number in one octet or in two, where it is there. It has room in them.
pub fn put_short(out: &mut Bytes, width: usize, value: Option<u16>) -> Result<(), Memory>
    requires one_or_two { (width ≡ 1) ⊎ (width ≡ 2) }
    requires fits { Fits width value }
    ensures { OnOk result (out.new ≡ out.old ++ field width value) }
{
    if width == 2 {
        return put_u16(out, value);
    }
    match value {
        Some(n) => out.push(n as u8),
        None => Ok(()),
    }
}

/// Adds an address, where it is there.
pub fn put_mac(out: &mut Bytes, value: Option<MacAddr>) -> Result<(), Memory>
    ensures { OnOk result (out.new ≡ out.old ++ octets_in value) }
{
    match value {
        Some(mac) => out.extend(&mac.octets()),
        None => Ok(()),
    }
}
