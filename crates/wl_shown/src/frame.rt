//! The shown text of a frame.

ghost use Rattle.std.specs.Prelude.{◌≡◌, ◌++◌, Option, OnOk, codes};
ghost use Rattle.std.specs.String.{string_bytes};
ghost use Rattle.wl_frame.specs.Reading.{value};
ghost use Rattle.wl_shown.specs.Parts.{joined_parts, more_parts};
ghost use Rattle.wl_shown.specs.FrameText.{kind_text, to_text, tid_of, rest_of, kind_parts, flag_parts, address_parts, protection_parts, payload_parts, frame_text};

use crate::show::{put_flag, put_number, put_octets, put_optional};
use std::alloc::Global;
use wl_elem::Memory;
use wl_frame::{Frame, Header, Kind, Protection};

/// The name of a kind.
fn kind_text(kind: &Kind) -> &'static str
    ensures { result.now ≡ kind_text kind.now }
{
    match kind {
        Kind::Qos { .. } => "qos",
        Kind::Action => "action",
        Kind::AssocAsk => "assoc-ask",
        Kind::AssocReply => "assoc-reply",
    }
}

/// Where data goes; `-` for management.
fn to_text(kind: &Kind) -> &'static str
    ensures { result.now ≡ to_text kind.now }
{
    match kind {
        Kind::Qos { to_ap: true, .. } => "ap",
        Kind::Qos { to_ap: false, .. } => "sta",
        Kind::Action | Kind::AssocAsk | Kind::AssocReply => "-",
    }
}

/// The TID of data.
fn tid_of(kind: &Kind) -> Option<u64>
    ensures { result ≡ tid_of kind.now }
{
    match kind {
        Kind::Qos { tid, .. } => Some(u64::from(tid.get())),
        Kind::Action | Kind::AssocAsk | Kind::AssocReply => None,
    }
}

/// The rest of the QoS control of data.
fn rest_of(kind: &Kind) -> Option<u64>
    ensures { result ≡ rest_of kind.now }
{
    match kind {
        Kind::Qos { rest, .. } => Some(u64::from(*rest)),
        Kind::Action | Kind::AssocAsk | Kind::AssocReply => None,
    }
}

/// Adds the kind of a frame, and what only data has.
fn push_kind(out: &mut String, kind: &Kind) -> Result<(), Memory>
    ensures { OnOk result (string_bytes out.new ≡ string_bytes out.old ++ (codes "frame(" ++ joined_parts (kind_parts kind.now))) }
{
    out.push_str("frame(")?;
    out.push_str(kind_text(kind))?;
    out.push_str(",to=")?;
    out.push_str(to_text(kind))?;
    put_optional(out, ",tid=", tid_of(kind))?;
    put_optional(out, ",rest=", rest_of(kind))
}

/// Adds the flags and the duration.
fn push_flags(out: &mut String, h: &Header) -> Result<(), Memory>
    ensures { OnOk result (string_bytes out.new ≡ string_bytes out.old ++ more_parts (flag_parts h.now)) }
{
    put_flag(out, ",retry=", h.retry)?;
    put_flag(out, ",power=", h.power)?;
    put_flag(out, ",more=", h.more)?;
    put_number(out, ",duration=", u64::from(h.duration))
}

/// Adds the addresses and the sequence number.
fn push_addresses(alloc: Global, out: &mut String, h: &Header) -> Result<(), Memory>
    ensures { OnOk result (string_bytes out.new ≡ string_bytes out.old ++ more_parts (address_parts h.now)) }
{
    put_octets(alloc, out, ",a1=", &h.a1.octets())?;
    put_octets(alloc, out, ",a2=", &h.a2.octets())?;
    put_octets(alloc, out, ",a3=", &h.a3.octets())?;
    put_number(out, ",number=", u64::from(h.number))
}

/// Adds the CCMP header, or `-` for each of its fields.
fn push_protection(out: &mut String, protection: &Option<Protection>) -> Result<(), Memory>
    ensures { OnOk result (string_bytes out.new ≡ string_bytes out.old ++ more_parts (protection_parts protection.now)) }
{
    match protection {
        Some(p) => {
            put_number(out, ",key=", u64::from(p.key_id))?;
            put_number(out, ",pn=", p.pn)?;
            put_number(out, ",spare=", u64::from(p.spare))?;
            put_number(out, ",bits=", u64::from(p.bits))?;
        }
        None => out.push_str(",key=-,pn=-,spare=-,bits=-")?,
    }
    Ok(())
}

/// Adds the payload, and the end.
fn push_payload(alloc: Global, out: &mut String, payload: &[u8]) -> Result<(), Memory>
    ensures { OnOk result (string_bytes out.new ≡ string_bytes out.old ++ (more_parts (payload_parts payload.now) ++ codes ")")) }
{
    put_octets(alloc, out, ",payload=", payload)?;
    out.push_str(")")?;
    Ok(())
}

/// Adds a frame as `frame(..)`, with all its fields.
pub fn push_frame(alloc: Global, out: &mut String, f: &Frame<'_>) -> Result<(), Memory>
    ensures { OnOk result (string_bytes out.new ≡ string_bytes out.old ++ frame_text (value f.now)) }
{
    push_kind(out, &f.header.kind)?;
    push_flags(out, &f.header)?;
    push_addresses(alloc, out, &f.header)?;
    push_protection(out, &f.protection)?;
    push_payload(alloc, out, f.payload)
}
