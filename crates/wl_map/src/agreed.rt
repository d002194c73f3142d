//! What one direction has agreed on.

ghost use Rattle.std.specs.Prelude.{◌≡◌, ◌<◌, bit_and, length};
ghost use Rattle.wl_elem.specs.Links.{set_limit};
ghost use Rattle.wl_ttlm.specs.Mapping.{is_mapping, is_tid_set, tid_count};
ghost use Rattle.wl_map.specs.Agreeing.{IsAgreed, sets_of, named, changed, is_valid_change, is_valid_if, kept, cut, cut_to, becomes_cut};

use crate::change::Change;
use wl_elem::LinkSet;
use wl_ttlm::{Mapping, is_valid};

/// The mapping of one direction.
#[derive(Clone, Copy, Debug, PartialEq, Eq)]
pub enum Agreed {
    /// Every TID on every link set up, whatever these are at the time.
    Default,
    /// These links for each TID.
    Sets(Mapping),
}

/// The mapping while these links are set up.
pub fn mapping_of(agreed: &Agreed, links: LinkSet) -> Mapping
    ensures { result.sets ≡ sets_of links agreed.now }
{
    match agreed {
        Agreed::Default => Mapping::default_over(links),
        Agreed::Sets(mapping) => *mapping,
    }
}

/// The bitmaps of the links of each TID, with those named in place of the ones before.
fn named(maps: &[Option<u16>; 8], sets: &[LinkSet; 8]) -> [u16; 8]
    ensures value { result ≡ named maps.now sets.now }
    ensures eight { length sets.now ≡ tid_count }
{
    let mut bitmaps = [0; 8];
    'tids: for tid in 0..8 {
        bitmaps[tid] = maps[tid].unwrap_or(sets[tid].bits());
    }
    bitmaps
}

/// Whether a TID may have this bitmap: it has a link, and only links set up.
fn is_tid_set(bits: u16, links: LinkSet) -> bool
    ensures { result ≡ is_tid_set links bits }
{
    bits != 0 && bits & links.bits() == bits
}

/// Whether a change is valid for this direction: each TID has a link after it, and only links set up.
fn is_valid_change(agreed: &Agreed, change: &Change, links: LinkSet) -> bool
    ensures { result ≡ is_valid_change links agreed.now change.now }
{
    match change {
        Change::Default => is_valid(&Mapping::default_over(links), links),
        Change::Sets(maps) => named(maps, &mapping_of(agreed, links).sets)
            .iter()
            .all(|bits| is_tid_set(*bits, links)),
    }
}

/// Whether a change is valid where there is one.
pub fn is_valid_if(agreed: &Agreed, change: &Option<Change>, links: LinkSet) -> bool
    ensures { result ≡ is_valid_if links agreed.now change.now }
{
    match change {
        Some(change) => is_valid_change(agreed, change, links),
        None => true,
    }
}

/// The links of a bitmap that are set up.
fn common(bits: u16, links: LinkSet) -> LinkSet
    ensures { result ≡ bit_and bits links }
{
    match LinkSet::from_bits(bits & links.bits()) {
        Some(set) => set,
        None => unreachable!(),
    }
}

/// The mapping of these bitmaps without links that aren't set up.
fn kept(bitmaps: &[u16; 8], links: LinkSet) -> Mapping
    ensures { result.sets ≡ kept links bitmaps.now }
{
    let mut sets = [links; 8];
    'tids: for tid in 0..8 {
        sets[tid] = common(bitmaps[tid], links);
    }
    Mapping { sets }
}

/// A direction of these bitmaps without links that aren't set up: the default where a TID has no link
/// then.
fn cut(bitmaps: &[u16; 8], links: LinkSet) -> Agreed
    ensures value { result ≡ cut links bitmaps.now }
    ensures is_agreed { IsAgreed links result }
{
    let mapping = kept(bitmaps, links);
    if !is_valid(&mapping, links) {
        return Agreed::Default;
    }
    Agreed::Sets(mapping)
}

/// A direction once the links set up have become these.
pub fn cut_to(agreed: &Agreed, links: LinkSet) -> Agreed
    ensures value { result ≡ cut_to links agreed.now }
    ensures is_agreed { IsAgreed links result }
{
    match agreed {
        Agreed::Default => Agreed::Default,
        Agreed::Sets(mapping) => cut(&named(&[None; 8], &mapping.sets), links),
    }
}

/// A direction after a change, cut to the links set up.
fn changed(agreed: &Agreed, change: &Change, links: LinkSet) -> Agreed
    ensures value { result ≡ cut_to links (changed links agreed.now change.now) }
    ensures is_agreed { IsAgreed links result }
{
    match change {
        Change::Default => Agreed::Default,
        Change::Sets(maps) => cut(&named(maps, &mapping_of(agreed, links).sets), links),
    }
}

/// A direction after the change that is asked for, cut to the links set up. Without one it stays.
pub fn becomes(agreed: &Agreed, change: &Option<Change>, links: LinkSet) -> Agreed
    requires { IsAgreed links agreed.now }
    ensures value { result ≡ becomes_cut links agreed.now change.now }
    ensures is_agreed { IsAgreed links result }
{
    match change {
        Some(change) => changed(agreed, change, links),
        None => *agreed,
    }
}
