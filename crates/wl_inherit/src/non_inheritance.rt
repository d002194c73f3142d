//! The value of a Non-Inheritance element.

ghost use Rattle.std.specs.Prelude.{◌↔◌, IsOk, IsTrue, IfOk};

use wl_elem::{BODY_LIMIT, Bytes, Memory};

/// A Non-Inheritance element (IEEE Std 802.11, 9.4.2.240): what a per-STA profile doesn't inherit
/// from the frame that carries it.
#[derive(Debug, Drop)]
pub struct NonInheritance {
    /// The IDs of elements, at most 255. An ID 255 among them excludes nothing.
    pub ids: Bytes,
    /// The Element ID Extensions of elements of ID 255, at most 255.
    pub exts: Bytes,
    /// What stands behind the two lists.
    pub tail: Bytes,
}

impl NonInheritance {
    ghost use Rattle.wl_inherit.specs.NonInheritance.{IsWritable};

    /// Whether some body of an element has this value: exactly where `encode_non` takes it. Each
    /// list has at most 255 octets, and the body at most 16,777,216. It takes no memory and always
    /// answers Ok.
    pub fn well_formed(&self) -> Result<bool, Memory>
        ensures answers { IsOk result }
        ensures exact { IfOk result (λ answer. IsTrue answer ↔ IsWritable self.now) }
    {
        let ids = self.ids.as_slice().len();
        let exts = self.exts.as_slice().len();
        if ids > 255 || exts > 255 {
            return Ok(false);
        }
        Ok(self.tail.as_slice().len() <= BODY_LIMIT - 2 - ids - exts)
    }
}
