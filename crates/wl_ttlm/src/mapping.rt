//! Mappings of TIDs to links.

ghost use Rattle.std.specs.Prelude.{◌≡◌, ◌↔◌, ◌<◌, ℕ, true, List, All, IsTrue, length};
ghost use Rattle.wl_elem.specs.Links.{set_limit};
ghost use Rattle.wl_ttlm.specs.Mapping.{IsMapping, IsTidSet, default_over, is_mapping, is_tid_set, tid_count};

use wl_elem::LinkSet;

/// Which links the frames of each TID may go over, in one direction (IEEE Std 802.11be, 35.3.7).
#[derive(Clone, Copy, Debug, PartialEq, Eq)]
pub struct Mapping {
    /// The links of each TID from 0 to 7.
    pub sets: [LinkSet; 8],
}

impl Mapping {
    /// The default mapping: every TID on every one of these links.
    pub fn default_over(links: LinkSet) -> Mapping
        ensures { result.sets ≡ default_over links }
    {
        Mapping { sets: [links; 8] }
    }
}

/// Whether a TID may be on these links: there is one, and each is set up.
fn is_tid_set(set: LinkSet, links: LinkSet) -> bool
    ensures test { result ≡ is_tid_set links set }
    ensures exact { IsTrue result ↔ IsTidSet links set }
{
    let bits = set.bits();
    bits != 0 && bits & links.bits() == bits
}

/// Whether a mapping is one over the links set up: true exactly where each TID has at least one link,
/// and only links of `links`. With no link set up no mapping is.
pub fn is_valid(mapping: &Mapping, links: LinkSet) -> bool
    ensures value { result ≡ is_mapping links mapping.now.sets }
    ensures valid { IsTrue result ↔ IsMapping links mapping.now.sets }
    ensures eight { length mapping.now.sets ≡ tid_count }
{
    'sets: for set in &mapping.sets {
        if !is_tid_set(*set, links) {
            return false;
        }
    }
    true
}

/// The test of bitmaps says what it is for: what passes has a link for each TID, and only links that
/// are set up.
pub fn a_mapping_passes()
    ensures passes { (links : ℕ) (sets : List ℕ) → All (λ set. set < set_limit) sets → IsMapping links sets → is_mapping links sets ≡ true }
    ensures only { (links : ℕ) (sets : List ℕ) → links < set_limit → is_mapping links sets ≡ true → IsMapping links sets }
{}
