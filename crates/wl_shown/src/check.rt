//! The command `check`: a verdict for each line of the input.

ghost use Rattle.std.specs.Prelude.{◌≡◌, ◌≤◌, length, IfOk, IfErr};
ghost use Rattle.std.specs.String.{string_bytes};
ghost use Rattle.wl_elem.specs.Element.{body_limit};
ghost use Rattle.wl_shown.specs.Line.{lines_of, IsLineFault};
ghost use Rattle.wl_shown.specs.Decoded.{IsTextFault};
ghost use Rattle.wl_shown.specs.Checked.{VerdictLines, AddsVerdict, AddsAnswer, refused_with};

use crate::decode::{TextFault, text_fault};
use crate::line::{Kind, LineFault, first_line, read_hex_line};
use crate::show::{push_refusal, put_number};
use crate::shown::put_answer;
use std::alloc::Global;
use wl_elem::{Fault, Memory};

/// The verdicts on the lines of an input.
#[derive(Debug, Drop)]
pub struct Verdicts {
    /// A line each: `ok` and the number of octets, or the refusal.
    pub text: String,
    /// The number of the first refused line, counted from 1.
    pub refused: Option<u64>,
}

/// Adds the verdict on octets of a kind, without its line end. Answers whether they are accepted.
fn push_verdict(
    alloc: Global,
    scratch: &mut String,
    out: &mut String,
    kind: Kind,
    octets: &[u8],
) -> Result<bool, Memory>
    requires { length octets.now ≤ body_limit }
    ensures { IfOk result (λ accepted. AddsAnswer kind octets.now accepted (string_bytes out.old) (string_bytes out.new)) }
{
    match put_answer(alloc, scratch, kind, octets) {
        Ok(()) => {
            put_number(out, "ok ", octets.len() as u64)?;
            Ok(true)
        }
        Err(Fault::Refused(refusal)) => {
            push_refusal(out, &refusal)?;
            Ok(false)
        }
        Err(Fault::Memory) => Err(Memory),
    }
}

/// Adds the verdict on a line, and its line end. Answers whether the line is accepted; NotHex exactly
/// where it is no hex line. `octets` and `scratch` are any, whose room serves from one line to the next.
fn push_line(
    alloc: Global,
    octets: &mut Vec<u8>,
    scratch: &mut String,
    out: &mut String,
    line: &[u8],
) -> Result<bool, LineFault>
    requires { length line.now ≤ body_limit }
    ensures judged { IfOk result (λ accepted. AddsVerdict line.now accepted (string_bytes out.old) (string_bytes out.new)) }
    ensures refused { IfErr result (IsLineFault line.now) }
{
    let kind = match read_hex_line(line, octets) {
        Ok(kind) => kind,
        Err(fault) => return Err(fault),
    };
    let accepted = match push_verdict(alloc, scratch, out, kind, octets.as_slice()) {
        Ok(accepted) => accepted,
        Err(Memory) => return Err(LineFault::Memory),
    };
    match out.push_str("\n") {
        Ok(()) => Ok(accepted),
        Err(_) => Err(LineFault::Memory),
    }
}

/// The first refused line once the line of this number has its verdict.
fn refused_with(number: u64, refused: Option<u64>, accepted: bool) -> Option<u64>
    ensures { result ≡ refused_with number refused accepted }
{
    match refused {
        Some(first) => Some(first),
        None if accepted => None,
        None => Some(number),
    }
}

/// The verdicts on all lines of the input: a line is accepted exactly where `decode` shows it as `ok`.
/// NotHex with the number of the first line that is no hex line.
pub fn checked_lines(alloc: Global, input: &[u8]) -> Result<Verdicts, TextFault>
    requires { length input.now ≤ body_limit }
    ensures judged { IfOk result (λ v. VerdictLines (lines_of input.now) (string_bytes v.text) v.refused) }
    ensures fault { IfErr result (IsTextFault (lines_of input.now)) }
{
    let mut octets = Vec::new(alloc);
    let mut scratch = String::new(alloc);
    let mut text = String::new(alloc);
    let mut refused = None;
    let mut rest = input;
    let mut number = 0u64;
    'lines: while !rest.is_empty() {
        let (line, after) = first_line(rest);
        number += 1;
        match push_line(alloc, &mut octets, &mut scratch, &mut text, line) {
            Ok(accepted) => refused = refused_with(number, refused, accepted),
            Err(fault) => return Err(text_fault(number, fault)),
        }
        rest = after;
    }
    Ok(Verdicts { text, refused })
}
