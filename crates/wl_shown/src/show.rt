//! Shown texts: refusals, elements and their parts.

ghost use Rattle.std.specs.Prelude.{◌≡◌, ◌++◌, OnOk, codes};
ghost use Rattle.std.specs.Fmt.{decimal};
ghost use Rattle.std.specs.String.{string_bytes};
ghost use Rattle.hex.specs.Hex.{encode_lower};
ghost use Rattle.wl_shown.specs.Parts.{flag_text, optional_text, optional_octets};
ghost use Rattle.wl_shown.specs.Text.{index_text, refused_text, name_text, element_text};

use itoa::Buffer;
use std::alloc::Global;
use wl_elem::{Element, MacAddr, Memory, Refusal};

/// Adds a number in decimal.
pub fn push_number(out: &mut String, n: u64) -> Result<(), Memory>
    ensures { OnOk result (string_bytes out.new ≡ string_bytes out.old ++ decimal n) }
{
    let mut buffer = Buffer::new();
    out.push_str(buffer.format(n))?;
    Ok(())
}

/// Adds an index of a refusal under its name, where it is there.
fn push_index(out: &mut String, name: &str, index: Option<u32>) -> Result<(), Memory>
    ensures { OnOk result (string_bytes out.new ≡ string_bytes out.old ++ index_text name.now index) }
{
    match index {
        Some(i) => {
            write!(out, "{name}{i}")?;
            Ok(())
        }
        None => Ok(()),
    }
}

/// Adds the text of a refusal: its indices where they are there, its place and its name.
pub fn push_refusal(out: &mut String, refusal: &Refusal) -> Result<(), Memory>
    ensures { OnOk result (string_bytes out.new ≡ string_bytes out.old ++ refused_text refusal.now) }
{
    out.push_str("refused")?;
    push_index(out, " element=", refusal.element)?;
    push_index(out, " sub=", refusal.sub)?;
    push_index(out, " inner=", refusal.inner)?;
    write!(out, " place={} {}", refusal.place, refusal.why.name())?;
    Ok(())
}

/// A flag as 0 or 1.
fn flag(set: bool) -> &'static str
    ensures { result.now ≡ flag_text set }
{
    if set { "1" } else { "0" }
}

/// Adds a number in decimal, or `-` where there is none.
fn push_optional(out: &mut String, value: Option<u64>) -> Result<(), Memory>
    ensures { OnOk result (string_bytes out.new ≡ string_bytes out.old ++ optional_text value) }
{
    match value {
        Some(n) => {
            push_number(out, n)?;
            Ok(())
        }
        None => {
            out.push_str("-")?;
            Ok(())
        }
    }
}

/// Adds octets as lower case hex digits.
pub fn push_hex(alloc: Global, out: &mut String, octets: &[u8]) -> Result<(), Memory>
    ensures { OnOk result (string_bytes out.new ≡ string_bytes out.old ++ encode_lower octets.now) }
{
    if octets.is_empty() {
        return Ok(());
    }
    let digits = hex::encode(alloc, octets)?;
    out.push_str(digits.as_str())?;
    Ok(())
}

/// Adds a number behind its name.
pub fn put_number(out: &mut String, name: &str, n: u64) -> Result<(), Memory>
    ensures { OnOk result (string_bytes out.new ≡ string_bytes out.old ++ (name.now ++ decimal n)) }
{
    out.push_str(name)?;
    push_number(out, n)
}

/// Adds a flag behind its name, as 0 or 1.
pub fn put_flag(out: &mut String, name: &str, set: bool) -> Result<(), Memory>
    ensures { OnOk result (string_bytes out.new ≡ string_bytes out.old ++ (name.now ++ flag_text set)) }
{
    out.push_str(name)?;
    out.push_str(flag(set))?;
    Ok(())
}

/// Adds a number behind its name, or `-` where there is none.
pub fn put_optional(out: &mut String, name: &str, value: Option<u64>) -> Result<(), Memory>
    ensures { OnOk result (string_bytes out.new ≡ string_bytes out.old ++ (name.now ++ optional_text value)) }
{
    out.push_str(name)?;
    push_optional(out, value)
}

/// Adds a number of one octet behind its name, or `-` where there is none.
pub fn put_octet(out: &mut String, name: &str, value: Option<u8>) -> Result<(), Memory>
    ensures { OnOk result (string_bytes out.new ≡ string_bytes out.old ++ (name.now ++ optional_text value)) }
{
    put_optional(out, name, value.map(u64::from))
}

/// Adds a number of two octets behind its name, or `-` where there is none.
pub fn put_word(out: &mut String, name: &str, value: Option<u16>) -> Result<(), Memory>
    ensures { OnOk result (string_bytes out.new ≡ string_bytes out.old ++ (name.now ++ optional_text value)) }
{
    put_optional(out, name, value.map(u64::from))
}

/// Adds octets behind their name.
pub fn put_octets(alloc: Global, out: &mut String, name: &str, octets: &[u8]) -> Result<(), Memory>
    ensures { OnOk result (string_bytes out.new ≡ string_bytes out.old ++ (name.now ++ encode_lower octets.now)) }
{
    out.push_str(name)?;
    push_hex(alloc, out, octets)
}

/// Adds an address behind its name, or `-` where there is none.
pub fn put_address(
    alloc: Global,
    out: &mut String,
    name: &str,
    address: Option<MacAddr>,
) -> Result<(), Memory>
    ensures { OnOk result (string_bytes out.new ≡ string_bytes out.old ++ (name.now ++ optional_octets address)) }
{
    match address {
        Some(address) => put_octets(alloc, out, name, &address.octets()),
        None => {
            out.push_str(name)?;
            out.push_str("-")?;
            Ok(())
        }
    }
}

/// Adds octets that stay as they are, and the end.
pub fn push_rest(alloc: Global, out: &mut String, name: &str, rest: &[u8]) -> Result<(), Memory>
    ensures { OnOk result (string_bytes out.new ≡ string_bytes out.old ++ (name.now ++ encode_lower rest.now ++ codes ")")) }
{
    put_octets(alloc, out, name, rest)?;
    out.push_str(")")?;
    Ok(())
}

/// Adds a field that is a number, and the end.
pub fn push_last(out: &mut String, name: &str, n: u64) -> Result<(), Memory>
    ensures { OnOk result (string_bytes out.new ≡ string_bytes out.old ++ (name.now ++ decimal n ++ codes ")")) }
{
    put_number(out, name, n)?;
    out.push_str(")")?;
    Ok(())
}

/// Adds the name of an element: `eID`, or `e255.EXT`.
fn push_name(out: &mut String, id: u8, ext: Option<u8>) -> Result<(), Memory>
    ensures { OnOk result (string_bytes out.new ≡ string_bytes out.old ++ name_text id ext) }
{
    match ext {
        Some(ext) => {
            out.push_str("e")?;
            push_number(out, u64::from(id))?;
            out.push_str(".")?;
            push_number(out, u64::from(ext))
        }
        None => {
            out.push_str("e")?;
            push_number(out, u64::from(id))
        }
    }
}

/// Adds an element as its name and its body.
pub fn push_element(alloc: Global, out: &mut String, e: &Element) -> Result<(), Memory>
    ensures { OnOk result (string_bytes out.new ≡ string_bytes out.old ++ element_text e.now) }
{
    push_name(out, e.id(), e.ext())?;
    out.push_str(":")?;
    push_hex(alloc, out, e.body())
}
