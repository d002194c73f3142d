//! The value of a Multi-Link element.

ghost use Rattle.std.specs.Prelude.{◌↔◌, ◌+◌, ◌≤◌, IsOk, IsTrue, IfOk, length, map};
ghost use Rattle.std.specs.List.{AllByRecursion};
ghost use Rattle.wl_elem.specs.Element.{body_limit};
ghost use Rattle.wl_elem.specs.Items.{items_len};
ghost use Rattle.wl_mle.specs.Fields.{IsShort, known_len};

use crate::basic::Basic;
use crate::info::{Info, head_len};
use crate::reconf::Reconf;
use crate::subs::{Subelement, subs_within};
use wl_elem::{BODY_LIMIT, Bytes, Memory};

/// A Multi-Link element (IEEE Std 802.11be, 9.4.2.312), by the type in its control word.
#[derive(Debug, Drop)]
pub enum MultiLink {
    /// Type 0.
    Basic(Basic),
    /// Type 2.
    Reconfiguration(Reconf),
    /// Another type: the control word, and what follows it.
    Other { control: u16, body: Bytes },
}

impl MultiLink {
    ghost use Rattle.wl_mle.specs.MultiLink.{IsMultiLink, IsWritable};
    ghost use Rattle.wl_mle.specs.Writing.{value_len};

    /// Whether some body of an element has this value: exactly where `encode_ml` takes it. `spare` has
    /// no bits but its own, a profile's is below 16 as `op` is, Link ID Info hasn't link ID 15, an NSTR
    /// bitmap is there exactly where `complete` and `pair` are set and below 256 unless `wide`, no other
    /// subelement has ID 0 or 254, `Other` has neither type 0 nor type 2, an Info field has at most 255
    /// octets, and the body at most 16,777,216. It takes no memory and always answers Ok.
    #[tactic(auto, using(crate::proofs::Writing::is_multi_link))]
    pub fn well_formed(&self) -> Result<bool, Memory>
        ensures answers { IsOk result }
        ensures exact { IfOk result (λ answer. IsTrue answer ↔ IsWritable self.now) }
    {
        wl_elem::items_spelled();
        wl_elem::items_length();
        if !self.fits() {
            return Ok(false);
        }
        Ok(self.is_within())
    }

    /// Whether the value has octets.
    fn fits(&self) -> bool
        ensures { IsTrue result ↔ IsMultiLink self.now }
    {
        match self {
            MultiLink::Basic(b) => b.fits(),
            MultiLink::Reconfiguration(r) => r.fits(),
            MultiLink::Other { control, body: _ } => control % 8 != 0 && control % 8 != 2,
        }
    }

    /// Whether a value that has octets has no more than an element's body may have.
    fn is_within(&self) -> bool
        requires { IsMultiLink self.now }
        ensures { IsTrue result ↔ (value_len self.now ≤ body_limit) }
    {
        match self {
            MultiLink::Basic(b) => is_within(b, b.subs.as_slice()),
            MultiLink::Reconfiguration(r) => is_within(r, r.subs.as_slice()),
            MultiLink::Other { control: _, body } => body.as_slice().len() <= BODY_LIMIT - 2,
        }
    }
}

/// Whether Common Info and these subelements have no more octets than an element's body may have.
fn is_within<I: Info, S: Subelement>(value: &I, subs: &[S]) -> bool
    requires short { IsShort (I.fields value.now) (I.tail value.now) }
    requires subs { AllByRecursion S.IsSub subs.now }
    ensures { IsTrue result ↔ (3 + known_len (I.fields value.now) + length (I.tail value.now) + items_len (map S.item subs.now) ≤ body_limit) }
{
    subs_within(subs, BODY_LIMIT - head_len(value))
}
