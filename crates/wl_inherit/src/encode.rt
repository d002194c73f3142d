//! Writing the element's body.

ghost use Rattle.std.specs.Prelude.{◌≡◌, ◌≤◌, ◌++◌, Option, Some, IfOk, OnOk, length};
ghost use Rattle.wl_elem.specs.Identity.{HasExtension, non_inheritance};
ghost use Rattle.wl_inherit.specs.NonInheritance.{NonOf, IsWritable, IsNonInheritance, listed, spelling};

use crate::non_inheritance::NonInheritance;
use std::alloc::Global;
use wl_elem::{Bytes, EXTENDED, Element, Memory, NON_INHERITANCE};

/// A list behind its length.
fn put_list(out: &mut Bytes, octets: &[u8]) -> Result<(), Memory>
    requires { length octets.now ≤ 255 }
    ensures { OnOk result (out.new ≡ out.old ++ listed octets.now) }
{
    out.push(octets.len() as u8)?;
    out.extend(octets)
}

/// The body of a value.
fn body_of(alloc: Global, value: &NonInheritance) -> Result<Bytes, Memory>
    requires { IsNonInheritance value.now }
    ensures { IfOk result (λ body. body ≡ spelling value.now) }
{
    let mut out = Bytes::new(alloc);
    put_list(&mut out, value.ids.as_slice())?;
    put_list(&mut out, value.exts.as_slice())?;
    out.extend(value.tail.as_slice())?;
    Ok(out)
}

/// The one element of this value, which is well formed: `NonInheritance::well_formed` says true of
/// it. Its identity is 255/56. `Memory` where there was none for the body.
pub fn encode_non(alloc: Global, value: &NonInheritance) -> Result<Element, Memory>
    requires { IsWritable value.now }
    ensures identity { IfOk result (λ e. HasExtension e non_inheritance) }
    ensures written { IfOk result (λ e. NonOf value.now e.body) }
{
    let body = body_of(alloc, value)?;
    match Element::new(EXTENDED, Some(NON_INHERITANCE), body) {
        Some(element) => Ok(element),
        None => unreachable!(),
    }
}
