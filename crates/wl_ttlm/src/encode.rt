//! Writing the element's body.

ghost use Rattle.std.specs.Prelude.{◌≡◌, ◌⊎◌, ◌++◌, IfOk, OnOk};
ghost use Rattle.std.specs.List.{AllByRecursion};
ghost use Rattle.wl_elem.specs.Fields.{Fits};
ghost use Rattle.wl_elem.specs.Identity.{HasExtension, tid_to_link_mapping};
ghost use Rattle.wl_ttlm.specs.Ttlm.{IsTtlm, TtlmOf, IsWritable, control, mappings, spelling};

use crate::ttlm::{Ttlm, map_width, presence_in};
use std::alloc::Global;
use wl_elem::{
    Bytes, EXTENDED, Element, Memory, TID_TO_LINK_MAPPING, put_short, put_u8, put_u16, put_u24,
};

/// The control octet.
fn control_of(value: &Ttlm) -> u8
    requires { IsTtlm value.now }
    ensures { result ≡ control value.now }
{
    value.direction
        + 4 * u8::from(value.default)
        + 8 * u8::from(value.switch.is_some())
        + 16 * u8::from(value.duration.is_some())
        + 32 * u8::from(value.narrow)
        + 64 * value.spare
}

/// Adds the mappings, the lowest TID first. They have room.
fn put_maps(out: &mut Bytes, width: usize, maps: &[Option<u16>; 8]) -> Result<(), Memory>
    requires one_or_two { (width ≡ 1) ⊎ (width ≡ 2) }
    requires fit { AllByRecursion (Fits width) maps.now }
    ensures { OnOk result (out.new ≡ out.old ++ mappings width maps.now) }
{
    'maps: for map in maps {
        put_short(out, width, *map)?;
    }
    Ok(())
}

/// The body of a value.
fn body_of(alloc: Global, value: &Ttlm) -> Result<Bytes, Memory>
    requires { IsTtlm value.now }
    ensures { IfOk result (λ body. body ≡ spelling value.now) }
{
    let mut out = Bytes::new(alloc);
    out.push(control_of(value))?;
    put_u8(&mut out, presence_in(value.default, &value.maps))?;
    put_u16(&mut out, value.switch)?;
    put_u24(&mut out, value.duration)?;
    put_maps(&mut out, map_width(value.narrow), &value.maps)?;
    out.extend(value.tail.as_slice())?;
    Ok(out)
}

/// The one element of this value, which is well formed: `Ttlm::well_formed` says true of it. Its
/// identity is 255/109. `Memory` where there was none for the body.
pub fn encode_ttlm(alloc: Global, value: &Ttlm) -> Result<Element, Memory>
    requires { IsWritable value.now }
    ensures identity { IfOk result (λ e. HasExtension e tid_to_link_mapping) }
    ensures written { IfOk result (λ e. TtlmOf value.now e.body) }
{
    let body = body_of(alloc, value)?;
    match Element::new(EXTENDED, Some(TID_TO_LINK_MAPPING), body) {
        Some(element) => Ok(element),
        None => unreachable!(),
    }
}
