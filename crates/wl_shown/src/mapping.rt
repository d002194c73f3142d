//! The shown text of a TID-To-Link Mapping element.

ghost use Rattle.std.specs.Prelude.{◌≡◌, ◌||◌, ◌++◌, OnOk, IfOk, is_some, codes};
ghost use Rattle.std.specs.String.{string_bytes};
ghost use Rattle.wl_shown.specs.Parts.{joined_parts, more_parts};
ghost use Rattle.wl_shown.specs.TtlmText.{map_items, sum_text, ttlm_parts, ttlm_rest, ttlm_text, map_text};

use crate::show::{push_number, put_flag, put_number, put_octets, put_optional, put_word};
use std::alloc::Global;
use wl_elem::Memory;
use wl_ttlm::Ttlm;

/// Adds the mapping of a TID, where it has one, behind a `+` where another stands before it.
/// Answers whether one stands there now.
fn push_map(out: &mut String, some: bool, tid: usize, map: Option<u16>) -> Result<bool, Memory>
    ensures bytes { OnOk result (string_bytes out.new ≡ string_bytes out.old ++ map_text some tid map) }
    ensures some { IfOk result (λ now. now ≡ some || is_some map) }
{
    match map {
        Some(n) => {
            if some {
                out.push_str("+")?;
            }
            push_number(out, tid as u64)?;
            out.push_str(":")?;
            push_number(out, u64::from(n))?;
            Ok(true)
        }
        None => Ok(some),
    }
}

/// Adds the mappings of the TIDs that have one, or `-` where none has.
fn push_maps(out: &mut String, maps: &[Option<u16>]) -> Result<(), Memory>
    ensures { OnOk result (string_bytes out.new ≡ string_bytes out.old ++ sum_text (map_items 0 maps.now)) }
{
    let mut some = false;
    for (tid, map) in maps.iter().enumerate() {
        some = push_map(out, some, tid, *map)?;
    }
    if !some {
        out.push_str("-")?;
    }
    Ok(())
}

/// Adds the fields before the mappings.
fn push_fields(out: &mut String, t: &Ttlm) -> Result<(), Memory>
    ensures { OnOk result (string_bytes out.new ≡ string_bytes out.old ++ (codes "ttlm(" ++ joined_parts (ttlm_parts t.now))) }
{
    put_number(out, "ttlm(dir=", u64::from(t.direction))?;
    put_flag(out, ",default=", t.default)?;
    put_number(out, ",spare=", u64::from(t.spare))?;
    put_flag(out, ",narrow=", t.narrow)?;
    put_word(out, ",switch=", t.switch)?;
    put_optional(out, ",duration=", t.duration.map(u64::from))
}

/// Adds the mappings and what stands behind them, and the end.
fn push_rest(alloc: Global, out: &mut String, t: &Ttlm) -> Result<(), Memory>
    ensures { OnOk result (string_bytes out.new ≡ string_bytes out.old ++ (more_parts (ttlm_rest t.now) ++ codes ")")) }
{
    out.push_str(",map=")?;
    push_maps(out, &t.maps)?;
    put_octets(alloc, out, ",tail=", t.tail.as_slice())?;
    out.push_str(")")?;
    Ok(())
}

/// Adds a mapping element as `ttlm(..)`, with all its fields.
pub fn push_ttlm(alloc: Global, out: &mut String, t: &Ttlm) -> Result<(), Memory>
    ensures { OnOk result (string_bytes out.new ≡ string_bytes out.old ++ ttlm_text t.now) }
{
    push_fields(out, t)?;
    push_rest(alloc, out, t)
}
