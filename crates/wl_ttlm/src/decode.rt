//! Reading the element's body.

ghost use Rattle.std.specs.Prelude.{◌≡◌, ◌≤◌, ◌<◌, ◌⊎◌, ◌∷◌, Result, IfOk, length, slice_index};
ghost use Rattle.wl_elem.specs.declared.fault.Refusal.{Refusal};
ghost use Rattle.wl_elem.specs.Fields.{total};
ghost use Rattle.wl_elem.specs.Answers.{Answers, AnswersOnly};
ghost use Rattle.wl_elem.specs.Element.{body_limit};
ghost use Rattle.wl_elem.specs.Identity.{HasExtension, tid_to_link_mapping};
ghost use Rattle.wl_ttlm.specs.declared.ttlm.Ttlm.{Ttlm};
ghost use Rattle.wl_ttlm.specs.Reading.{maps_at, value_at};
ghost use Rattle.wl_ttlm.specs.Ttlm.{ReadAs, mapped, map_widths, widths};

use crate::laws::read_once;
use crate::ttlm::{Ttlm, map_width};
use std::alloc::Global;
use wl_elem::{
    Bytes, Element, Fault, Memory, Why, first_cut, has_bit, short_if, u8_if, u16_if, u24_if,
    width_if,
};

/// The bits of the TIDs that have a mapping: the presence octet, which is the first, or none where
/// the default mapping stands for it.
fn mapped(default: bool, octets: &[u8]) -> u8
    ensures { result ≡ mapped default (slice_index octets.now 0) }
{
    match octets {
        [first, ..] if !default => *first,
        _ => 0,
    }
}

/// The widths of the fields behind the control octet.
fn widths(control: u8, present: u8) -> [usize; 11]
    ensures { result ≡ widths control present }
{
    let control = u16::from(control);
    let present = u16::from(present);
    let width = map_width(has_bit(control, 32));
    [
        width_if(!has_bit(control, 4), 1),
        width_if(has_bit(control, 8), 2),
        width_if(has_bit(control, 16), 3),
        width_if(has_bit(present, 1), width),
        width_if(has_bit(present, 2), width),
        width_if(has_bit(present, 4), width),
        width_if(has_bit(present, 8), width),
        width_if(has_bit(present, 16), width),
        width_if(has_bit(present, 32), width),
        width_if(has_bit(present, 64), width),
        width_if(has_bit(present, 128), width),
    ]
}

/// The mappings of the TIDs whose bits are set, the lowest TID first. They are whole.
fn maps_of(present: u8, width: usize, octets: &[u8]) -> ([Option<u16>; 8], &[u8])
    requires one_or_two { (width ≡ 1) ⊎ (width ≡ 2) }
    requires whole { total (map_widths 8 present width) ≤ length octets.now }
    ensures { (result.0, result.1.now) ≡ maps_at 8 present width octets.now }
{
    let mut maps = [None; 8];
    let mut bits = present;
    let mut left = octets;
    'maps: for map in &mut maps {
        let (field, after) = short_if(bits % 2 == 1, width, left);
        *map = field;
        bits /= 2;
        left = after;
    }
    (maps, left)
}

/// The value behind its control octet. Its fields are whole.
#[tactic(auto, unfolding(crate::specs::Reading::value_at))]
fn value_of(alloc: Global, control: u8, present: u8, octets: &[u8]) -> Result<Ttlm, Memory>
    requires { total (widths control present) ≤ length octets.now }
    ensures { IfOk result (λ t. t ≡ value_at control present octets.now) }
{
    let bits = u16::from(control);
    let default = has_bit(bits, 4);
    let narrow = has_bit(bits, 32);
    let (_, octets) = u8_if(!default, octets);
    let (switch, octets) = u16_if(has_bit(bits, 8), octets);
    let (duration, octets) = u24_if(has_bit(bits, 16), octets);
    let (maps, octets) = maps_of(present, map_width(narrow), octets);
    let tail = Bytes::from_slice(alloc, octets)?;
    Ok(Ttlm {
        direction: control % 4,
        default,
        spare: control / 64,
        narrow,
        switch,
        duration,
        maps,
        tail,
    })
}

/// Reads the octets behind the control octet.
fn decode_fields(alloc: Global, control: u8, octets: &[u8]) -> Result<Ttlm, Fault>
    requires { length octets.now < body_limit }
    ensures { Answers result (ReadAs (control ∷ octets.now)) }
{
    if control % 4 == 3 {
        return Err(Fault::at(0, Why::ReservedDirection));
    }
    let present = mapped(has_bit(u16::from(control), 4), octets);
    if let Some(left) = first_cut(&widths(control, present), octets.len()) {
        return Err(Fault::at(1 + octets.len() - left, Why::Truncated));
    }
    Ok(value_of(alloc, control, present, octets)?)
}

/// Reads a body.
fn decode_body(alloc: Global, body: &[u8]) -> Result<Ttlm, Fault>
    requires { length body.now ≤ body_limit }
    ensures { Answers result (ReadAs body.now) }
{
    match body {
        [control, octets @ ..] => decode_fields(alloc, *control, octets),
        [] => Err(Fault::at(0, Why::Truncated)),
    }
}

/// Reads a TID-To-Link Mapping element, whose identity is 255/109.
///
/// Ok exactly where the body is that of a value; each value has one body. Otherwise, in this order:
/// Truncated at 0 where there is no control octet, ReservedDirection at 0 where the direction is 3,
/// Truncated at the first field that isn't whole. The octets behind the known fields are the tail.
/// `Memory` where there was none for the tail; it says nothing of the body.
pub fn decode_ttlm(alloc: Global, element: &Element) -> Result<Ttlm, Fault>
    requires { HasExtension element.now tid_to_link_mapping }
    ensures read { Answers result (ReadAs element.now.body) }
    ensures only { (reading : Result Ttlm Refusal) → ReadAs element.now.body reading → AnswersOnly result reading }
{
    read_once();
    decode_body(alloc, element.body())
}
