//! Writing the element's body.

ghost use Rattle.std.specs.Prelude.{◌++◌, IfOk, map};
ghost use Rattle.std.specs.List.{AllByRecursion};
ghost use Rattle.wl_elem.specs.Identity.{multi_link, HasExtension};
ghost use Rattle.wl_elem.specs.Octets.{octets_of};
ghost use Rattle.wl_mle.specs.declared.multi_link.MultiLink.TheVariants as elements;
ghost use Rattle.wl_mle.specs.Fields.{info, IsShort};
ghost use Rattle.wl_mle.specs.MultiLink.{IsOther, IsMultiLink, IsWritable, MlOf};
ghost use Rattle.wl_mle.specs.Writing.{AddsSubs};

use crate::info::{Info, put_info};
use crate::laws::spelled_once;
use crate::multi_link::MultiLink;
use crate::subs::{Subelement, put_subs};
use std::alloc::Global;
use wl_elem::{Bytes, EXTENDED, Element, MULTI_LINK, Memory, put_u16};

/// The body of an element with Common Info and subelements.
fn info_body<I: Info, S: Subelement>(alloc: Global, value: &I, subs: &[S]) -> Result<Bytes, Memory>
    requires is { I.IsInfo value.now }
    requires short { IsShort (I.fields value.now) (I.tail value.now) }
    requires subs { AllByRecursion S.IsSub subs.now }
    ensures { IfOk result (λ body. AddsSubs (map S.item subs.now) (octets_of 2 (I.word value.now) ++ info (I.fields value.now) (I.tail value.now)) body) }
{
    let mut out = Bytes::new(alloc);
    put_info(&mut out, value)?;
    put_subs(alloc, &mut out, subs)?;
    Ok(out)
}

/// The body of an element of another type.
#[tactic(auto, using(crate::proofs::Writing::other_made))]
fn other_body(alloc: Global, control: u16, octets: &[u8]) -> Result<Bytes, Memory>
    requires { IsOther control }
    ensures { IfOk result (λ body. MlOf (elements.Other control octets.now) body) }
{
    let mut out = Bytes::new(alloc);
    put_u16(&mut out, Some(control))?;
    out.extend(octets)?;
    Ok(out)
}

/// The body of a value.
#[tactic(auto, using(crate::proofs::Writing::basic_made, crate::proofs::Writing::reconf_made))]
fn body_of(alloc: Global, value: &MultiLink) -> Result<Bytes, Memory>
    requires { IsMultiLink value.now }
    ensures { IfOk result (λ body. MlOf value.now body) }
{
    match value {
        MultiLink::Basic(b) => info_body(alloc, b, b.subs.as_slice()),
        MultiLink::Reconfiguration(r) => info_body(alloc, r, r.subs.as_slice()),
        MultiLink::Other { control, body } => other_body(alloc, *control, body.as_slice()),
    }
}

/// The one element of this value, which is well formed: `MultiLink::well_formed` says true of it. Its
/// identity is 255/107. `Memory` where there was none for the body.
#[tactic(auto, using(crate::proofs::Writing::is_multi_link))]
pub fn encode_ml(alloc: Global, value: &MultiLink) -> Result<Element, Memory>
    requires { IsWritable value.now }
    ensures identity { IfOk result (λ e. HasExtension e multi_link) }
    ensures written { IfOk result (λ e. MlOf value.now e.body) }
{
    spelled_once();
    let body = body_of(alloc, value)?;
    match Element::new(EXTENDED, Some(MULTI_LINK), body) {
        Some(element) => Ok(element),
        None => unreachable!(),
    }
}
