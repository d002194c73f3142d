//! Reading element lists.

ghost use Rattle.std.specs.Prelude.{◌≡◌, ◌≢◌, ◌≤◌, ◌<◌, ◌*◌, ◌==◌, ℕ, List, Option, true, Result, Ok, length, IsTrue, IfOk, IfErr};
ghost use Rattle.wl_elem.specs.declared.fault.Refusal.{Refusal};
ghost use Rattle.wl_elem.specs.Answers.{Answers, AnswersOnly};
ghost use Rattle.wl_elem.specs.Element.{ElementValue, information, has_shape, body_limit};
ghost use Rattle.wl_elem.specs.ElementList.{ReadAs};
ghost use Rattle.wl_elem.specs.declared.kind.ListKind.TheVariants.{Elements as ElementList};
ghost use Rattle.wl_elem.specs.Cutting.{fragment_id};
ghost use Rattle.wl_elem.specs.Row.{is_extended};

use crate::block::first_block;
use crate::bytes::Bytes;
use crate::element::Element;
use crate::elements::Elements;
use crate::fault::Fault;
use crate::kind::ListKind;
use std::alloc::Global;

/// The element of this information: that of ID 255 begins with the extension.
fn element_of(id: u8, mut octets: Vec<u8>) -> Element
    requires room { length octets.items ≤ body_limit }
    requires fresh { id ≢ fragment_id ElementList }
    requires extended { is_extended ElementList id ≡ true → 0 < length octets.items }
    ensures shape { IsTrue (has_shape result.id result.ext) }
    ensures same_id { result.id ≡ id }
    ensures same { information result ≡ octets.items }
{
    if ListKind::Elements.is_extended(id) {
        let ext = octets.remove(0);
        return Element::of_parts(id, Some(ext), Bytes::from_vec(octets));
    }
    Element::of_parts(id, None, Bytes::from_vec(octets))
}

/// Reads a list of elements, all of the octets.
///
/// Ok exactly where the octets are the pieces of elements; each list has one spelling. Otherwise the
/// refusal of the first piece that breaks a rule, at the place of its header: in this order
/// Truncated where fewer than 2 octets are left, StrayFragment where a Fragment doesn't directly
/// follow a piece of Length 255, EmptyFragment where it has Length 0, NoExtension where ID 255 has
/// Length 0, Truncated where fewer octets are left than the Length. The input has at most
/// 16,777,216 octets.
pub fn decode_elements(alloc: Global, input: &[u8]) -> Result<Elements, Fault>
    requires { length input.now ≤ body_limit }
    ensures read { Answers result (ReadAs input.now) }
    ensures only { (reading : Result (List ElementValue) Refusal) → ReadAs input.now reading → AnswersOnly result reading }
    ensures count { IfOk result (λ list. 2 * length list ≤ length input.now) }
{
    let mut list = Elements::new(alloc);
    let mut rest = input;
    'elements: while !rest.is_empty() {
        let block = match first_block(alloc, ListKind::Elements, rest) {
            Ok(block) => block,
            Err(stop) => return Err(stop.fault(input.len())),
        };
        rest = block.rest;
        list.push(element_of(block.id, block.information))?;
    }
    Ok(list)
}
