//! Octets as they stand in a line.

ghost use Rattle.std.specs.Prelude.{◌≤◌, length, IfSome};
ghost use Rattle.wl_elem.specs.Element.{body_limit};

use crate::words::number_of;
use std::alloc::Global;
use wl_elem::Bytes;

/// The most octets that one part may have.
const MOST: usize = 33_554_432;

/// A run of so many equal octets or more is written as its octet and its length.
const LONG: usize = 16;

/// The octets of hex digits.
fn digits_of(alloc: Global, digits: &str) -> Option<Vec<u8>> {
    hex::decode(alloc, digits).ok()
}

/// An octet, so many times.
fn run_of(alloc: Global, octet: &str, count: &str) -> Option<Vec<u8>> {
    let count = number_of::<usize>(count)?;
    let octet = digits_of(alloc, octet)?;
    if octet.len() != 1 || count > MOST {
        return None;
    }
    vec![in alloc; octet[0]; count].ok()
}

/// The octets of a part: hex digits, or an octet, `*` and how often it stands.
fn part_of(alloc: Global, part: &str) -> Option<Vec<u8>> {
    match part.split_once('*') {
        Some((octet, count)) => run_of(alloc, octet, count),
        None => digits_of(alloc, part),
    }
}

/// The octets of a word, however many: parts joined by `+`, or `-` for none.
pub fn any_octets_of(alloc: Global, word: &str) -> Option<Bytes> {
    let mut out = Vec::new(alloc);
    if word != "-" {
        for part in word.split('+') {
            let octets = part_of(alloc, part)?;
            out.extend_from_slice(octets.as_slice()).ok()?;
        }
    }
    Some(Bytes::from_vec(out))
}

/// The octets of a word, no more than an element's body may have.
pub fn octets_of(alloc: Global, word: &str) -> Option<Bytes>
    ensures { IfSome result (λ octets. length octets ≤ body_limit) }
{
    let octets = any_octets_of(alloc, word)?;
    if octets.as_slice().len() > 16_777_216 {
        return None;
    }
    Some(octets)
}

/// Octets that are being written.
#[derive(Drop)]
struct Writing {
    text: String,
    after_long: bool,
}

impl Writing {
    /// Adds a run of equal octets.
    fn push_run(&mut self, alloc: Global, run: &[u8]) -> Option<()> {
        let is_long = run.len() >= LONG;
        if !self.text.is_empty() && (is_long || self.after_long) {
            self.text.push_str("+").ok()?;
        }
        self.after_long = is_long;
        match run {
            [octet, ..] if is_long => {
                let count = run.len();
                write!(self.text, "{octet:02x}*{count}").ok()
            }
            _ => {
                let digits = hex::encode(alloc, run).ok()?;
                self.text.push_str(digits.as_str()).ok()
            }
        }
    }
}

/// Octets as a line shows them: hex digits, a long run as an octet, `*` and its length, joined by `+`;
/// none as `-`.
pub fn octets_text(alloc: Global, octets: &[u8]) -> Option<String> {
    if octets.is_empty() {
        return String::from_str(alloc, "-").ok();
    }
    let mut writing = Writing {
        text: String::new(alloc),
        after_long: false,
    };
    for run in octets.chunk_by(|a, b| a == b) {
        writing.push_run(alloc, run)?;
    }
    Some(writing.text)
}
