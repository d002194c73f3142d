//! The command `decode`: a shown line for each line of the input.

ghost use Rattle.std.specs.Prelude.{◌≡◌, ◌≤◌, length, OnOk, IfOk, IfErr};
ghost use Rattle.std.specs.String.{string_bytes};
ghost use Rattle.wl_elem.specs.Element.{body_limit};
ghost use Rattle.wl_shown.specs.Line.{lines_of, IsLineFault};
ghost use Rattle.wl_shown.specs.Decoded.{ShownLines, IsTextFault, IsFaultAt, AddsLine};

use crate::line::{LineFault, first_line, read_hex_line};
use crate::shown::push_shown;
use std::alloc::Global;
use wl_elem::Memory;

/// Why no text was made for an input.
#[derive(Clone, Copy, Debug, PartialEq, Eq)]
pub enum TextFault {
    /// The line of this number, counted from 1, is no hex line.
    NotHex(u64),
    /// There was no memory for the text.
    Memory,
}

/// Adds what is shown for a line, and its line end. NotHex exactly where it is no hex line. `octets`
/// and `scratch` are any, whose room serves from one line to the next.
fn push_line(
    alloc: Global,
    octets: &mut Vec<u8>,
    scratch: &mut String,
    out: &mut String,
    line: &[u8],
) -> Result<(), LineFault>
    requires { length line.now ≤ body_limit }
    ensures shown { OnOk result (AddsLine line.now (string_bytes out.old) (string_bytes out.new)) }
    ensures refused { IfErr result (IsLineFault line.now) }
{
    let kind = match read_hex_line(line, octets) {
        Ok(kind) => kind,
        Err(fault) => return Err(fault),
    };
    match push_shown(alloc, scratch, out, kind, octets.as_slice()) {
        Ok(()) => {}
        Err(Memory) => return Err(LineFault::Memory),
    }
    match out.push_str("\n") {
        Ok(()) => Ok(()),
        Err(_) => Err(LineFault::Memory),
    }
}

/// The fault of a text whose line of this number has one.
pub fn text_fault(number: u64, fault: LineFault) -> TextFault
    ensures { IsFaultAt number fault result }
{
    match fault {
        LineFault::NotHex => TextFault::NotHex(number),
        LineFault::Memory => TextFault::Memory,
    }
}

/// The shown lines of all lines of the input; NotHex with the number of the first that is no hex
/// line.
pub fn shown_lines(alloc: Global, input: &[u8]) -> Result<String, TextFault>
    requires { length input.now ≤ body_limit }
    ensures shown { IfOk result (λ text. ShownLines (lines_of input.now) (string_bytes text)) }
    ensures fault { IfErr result (IsTextFault (lines_of input.now)) }
{
    let mut octets = Vec::new(alloc);
    let mut scratch = String::new(alloc);
    let mut out = String::new(alloc);
    let mut rest = input;
    let mut number = 0u64;
    'lines: while !rest.is_empty() {
        let (line, after) = first_line(rest);
        number += 1;
        match push_line(alloc, &mut octets, &mut scratch, &mut out, line) {
            Ok(()) => {}
            Err(fault) => return Err(text_fault(number, fault)),
        }
        rest = after;
    }
    Ok(out)
}
