//! Calls on the TID-To-Link Mapping element.

use crate::octets::octets_text;
use crate::words::{extended_of, fault_text, number_of, optional_of, text, yes};
use std::alloc::Global;
use wl_elem::Bytes;
use wl_ttlm::{Ttlm, decode_ttlm, encode_ttlm};

/// The answer of a call. None where there is none of this name, or a word can't be read.
pub fn answer(alloc: Global, name: &str, words: &[&str]) -> Option<String> {
    match name {
        "ttlm" => ttlm(alloc, words),
        "ttlm_fits" => fits(alloc, words),
        _ => None,
    }
}

/// The body that a value is written in, where it is well formed.
fn written(alloc: Global, value: &Ttlm) -> Option<String> {
    match value.well_formed() {
        Ok(true) => octets_text(alloc, encode_ttlm(alloc, value).ok()?.body()),
        _ => text(alloc, "not_well_formed"),
    }
}

/// `ttlm BODY`: the body that the element's value is written in again, or the refusal.
fn ttlm(alloc: Global, words: &[&str]) -> Option<String> {
    let [body] = words else {
        return None;
    };
    let element = extended_of(alloc, 109, body)?;
    match decode_ttlm(alloc, &element) {
        Ok(value) => written(alloc, &value),
        Err(fault) => fault_text(alloc, fault),
    }
}

/// `ttlm_fits DIRECTION DEFAULT SPARE NARROW DURATION MAP`: whether the value with these fields, a
/// switch time of 65,535 and MAP, if it isn't `-`, as the mapping of TID 7 is well formed. A flag is
/// `yes`, or `no`.
fn fits(alloc: Global, words: &[&str]) -> Option<String> {
    let [direction, default, spare, narrow, duration, map] = words else {
        return None;
    };
    let value = Ttlm {
        direction: number_of::<u8>(direction)?,
        default: *default == "yes",
        spare: number_of::<u8>(spare)?,
        narrow: *narrow == "yes",
        switch: Some(u16::MAX),
        duration: Some(number_of::<u32>(duration)?),
        maps: [
            None,
            None,
            None,
            None,
            None,
            None,
            None,
            optional_of::<u16>(map)?,
        ],
        tail: Bytes::new(alloc),
    };
    text(alloc, yes(value.well_formed().ok()?))
}
