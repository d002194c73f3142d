//! The tests up to the elements.

ghost use Rattle.std.specs.Prelude.{◌≡◌, ◌+◌, ◌≤◌, ◌<◌, ◌^◌, ◌∷◌, [], Some, None, slice_index, length, IfOk, IfErr};
ghost use Rattle.wl_elem.specs.Answers.{refusal_at};
ghost use Rattle.wl_elem.specs.Element.{body_limit};
ghost use Rattle.wl_elem.specs.Fields.{first_cut};
ghost use Rattle.wl_action.specs.Action.{entry_widths, more_widths, field_fault, head_fault, cut_fault, widths};
ghost use Rattle.wl_action.specs.Reading.{IsHead};

use crate::code::{Code, code_of, is_known};
use wl_elem::{Refusal, Why, first_cut, width_if};

/// How many octets are left at the first link or status that isn't whole, of so many of both: the
/// links of whole pairs are whole, and one octet behind those is a whole link.
fn entries_cut(count: u8, len: usize) -> Option<usize>
    ensures { result ≡ first_cut (entry_widths count) len }
{
    if len >= 3 * usize::from(count) {
        return None;
    }
    Some((len % 3).saturating_sub(1))
}

/// How many octets are left at the first of the two fields of an EML notice that isn't whole, where
/// they are there.
fn optional_cut(control: u8, len: usize) -> Option<usize>
    ensures { result ≡ first_cut (more_widths Code.Eml (0 ∷ control ∷ [])) len }
{
    let links = width_if(control % 2 == 1, 2);
    let update = width_if(control / 4 % 2 == 1, 1);
    first_cut(&[links, update], len)
}

/// The refusal of a field that isn't whole, where so many octets are left at it.
fn cut_fault(len: usize, left: Option<usize>) -> Option<Refusal>
    requires { len < 2 ^ 32 }
    ensures { result ≡ cut_fault len left None }
{
    match left {
        Some(left) => Some(Refusal::at(len.saturating_sub(left), Why::Truncated)),
        None => None,
    }
}

/// The first test of the fields that fails behind token and control of an EML notice.
fn eml_fault(rest: &[u8]) -> Option<Refusal>
    requires room { 2 + length rest.now ≤ body_limit }
    requires whole { first_cut (1 ∷ 1 ∷ []) (length rest.now) ≡ None }
    ensures { result ≡ field_fault Code.Eml rest.now }
{
    let control = rest[1];
    if control / 2 % 2 == 1 {
        return Some(Refusal::at(3, Why::EmlmrLeftOut));
    }
    cut_fault(rest.len() + 2, optional_cut(control, rest.len() - 2))
}

/// The first link or status that isn't whole, behind token and count.
fn entries_fault(rest: &[u8]) -> Option<Refusal>
    requires room { 2 + length rest.now ≤ body_limit }
    requires whole { first_cut (1 ∷ 1 ∷ []) (length rest.now) ≡ None }
    ensures { result ≡ field_fault Code.ReconfReply rest.now }
{
    cut_fault(rest.len() + 2, entries_cut(rest[1], rest.len() - 2))
}

/// The first test of the fields that fails, behind category and action.
fn field_fault(code: Code, rest: &[u8]) -> Option<Refusal>
    requires { 2 + length rest.now ≤ body_limit }
    ensures { result ≡ field_fault code rest.now }
{
    let left = first_cut(code.widths(), rest.len());
    if left.is_some() {
        return cut_fault(rest.len() + 2, left);
    }
    match code {
        Code::Eml => eml_fault(rest),
        Code::ReconfReply => entries_fault(rest),
        _ => None,
    }
}

/// The kind of a body, its action, and what stands behind that, where no test up to the elements
/// fails.
pub fn head_of(body: &[u8]) -> Result<(Code, u8, &[u8]), Refusal>
    requires { length body.now ≤ body_limit }
    ensures ok { IfOk result (λ head. IsHead body.now head.0 head.1 head.2.now) }
    ensures err { IfErr result (λ refusal. head_fault body.now ≡ Some refusal) }
{
    let [category, after @ ..] = body else {
        return Err(Refusal::at(0, Why::Truncated));
    };
    if !is_known(*category) {
        return Err(Refusal::at(0, Why::UnknownCategory));
    }
    let [action, rest @ ..] = after else {
        return Err(Refusal::at(1, Why::Truncated));
    };
    let Some(code) = code_of(*category, *action) else {
        return Err(Refusal::at(1, Why::UnknownAction));
    };
    match field_fault(code, rest) {
        Some(refusal) => Err(refusal),
        None => Ok((code, *action, rest)),
    }
}
