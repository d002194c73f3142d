//! Lines of an input, and hex lines.

ghost use Rattle.std.specs.Prelude.{◌≡◌, ◌<◌, ◌≤◌, ◌+◌, ◌*◌, ◌∷◌, ◌++◌, ℕ, List, length, IfErr, IfOk, OnOk, IsNone, IfSome};
ghost use Rattle.std.specs.Str.Lines.{strip_carriage_return};
ghost use Rattle.wl_shown.specs.Line.{Lacks, IsSplitAt, kind_word, IsKindLine, IsOnlyReading, IsHexLine, IsNoHexLine, IsLineFault, lines_of};
ghost use Rattle.wl_shown.specs.declared.line.Kind.{Kind};

/// What the octets of a hex line are.
#[derive(Clone, Copy, Debug, PartialEq, Eq)]
pub enum Kind {
    /// A list of elements, as `elements` or with no word.
    Elements,
    /// The body of an Action frame, as `action`.
    Action,
    /// The body of an Association Request, as `assoc-ask`.
    AssocAsk,
    /// The body of an Association Response, as `assoc-reply`.
    AssocReply,
    /// A protected frame, as `frame`.
    Frame,
}

/// Why a line wasn't read.
#[derive(Clone, Copy, Debug, PartialEq, Eq)]
pub enum LineFault {
    /// It is no hex line.
    NotHex,
    /// There was no memory for its octets.
    Memory,
}

/// What stands before the first such octet, and what behind it.
fn split_around(octet: u8, octets: &[u8]) -> Option<(&[u8], &[u8])>
    ensures found { IfSome result (λ parts. IsSplitAt octet octets.now parts.0.now parts.1.now) }
    ensures none { IsNone result → Lacks octet octets.now }
{
    let place = octets.iter().position(|o| *o == octet)?;
    match octets.split_at(place) {
        (front, [_, back @ ..]) => Some((front, back)),
        (_, []) => None,
    }
}

/// The kind of a word, if it has one.
fn kind_of(word: &[u8]) -> Option<Kind>
    ensures found { IfSome result (λ kind. word.now ≡ kind_word kind) }
    ensures none { IsNone result → (kind : Kind) → word.now ≡ kind_word kind → ⊥ }
{
    if word == b"elements".as_slice() {
        return Some(Kind::Elements);
    }
    if word == b"action".as_slice() {
        return Some(Kind::Action);
    }
    if word == b"assoc-ask".as_slice() {
        return Some(Kind::AssocAsk);
    }
    if word == b"assoc-reply".as_slice() {
        return Some(Kind::AssocReply);
    }
    if word == b"frame".as_slice() {
        return Some(Kind::Frame);
    }
    None
}

/// The line without one `\r` at its end.
fn without_return(line: &[u8]) -> &[u8]
    ensures { result.now ≡ strip_carriage_return line.now }
{
    match line {
        [front @ .., b'\r'] => front,
        _ => line,
    }
}

/// The first line of a text that isn't empty, and what stands behind its line end.
pub fn first_line(text: &[u8]) -> (&[u8], &[u8])
    requires { 0 < length text.now }
    ensures lines { lines_of text.now ≡ result.0.now ∷ lines_of result.1.now }
    ensures shorter { length result.0.now + length result.1.now ≤ length text.now }
    ensures fewer { length result.1.now < length text.now }
{
    match split_around(b'\n', text) {
        Some((line, rest)) => (without_return(line), rest),
        None => (without_return(text), &[]),
    }
}

/// The kind of a line, and its digits: behind a word and one space, or all of the line.
fn split_kind(line: &[u8]) -> Option<(Kind, &[u8])>
    ensures bound { IfSome result (λ parts. length parts.1.now ≤ length line.now) }
    ensures found { IfSome result (λ parts. IsKindLine line.now parts.0 parts.1.now) }
    ensures only { IfSome result (λ parts. IsOnlyReading line.now parts.0 parts.1.now) }
    ensures none { IsNone result → IsNoHexLine line.now }
{
    match split_around(b' ', line) {
        Some((word, digits)) => match kind_of(word) {
            Some(kind) => Some((kind, digits)),
            None => None,
        },
        None => Some((Kind::Elements, line)),
    }
}

/// Reads a hex line: answers its kind, and makes `octets` its octets. NotHex exactly where it is no
/// hex line; after a fault `octets` has no meaning.
pub fn read_hex_line(line: &[u8], octets: &mut Vec<u8>) -> Result<Kind, LineFault>
    ensures read { IfOk result (λ kind. IsHexLine line.now kind octets.new.items) }
    ensures bound { OnOk result (2 * length octets.new.items ≤ length line.now) }
    ensures refused { IfErr result (IsLineFault line.now) }
{
    let (kind, digits) = match split_kind(line) {
        Some(parts) => parts,
        None => return Err(LineFault::NotHex),
    };
    octets.clear();
    if octets.resize(digits.len() / 2, 0).is_err() {
        return Err(LineFault::Memory);
    }
    match hex::decode_to_slice(digits, octets.as_mut_slice()) {
        Ok(()) => Ok(kind),
        Err(_) => Err(LineFault::NotHex),
    }
}
