//! Links and sets of links (IEEE Std 802.11be, 35.3).

ghost use Rattle.std.specs.Prelude.{◌≡◌, ◌↔◌, ◌<◌, ◌||◌, ◌&&◌, ◌==◌, not, count_ones, ℕ, IsSome, IfSome, IsTrue};
ghost use Rattle.wl_elem.specs.Links.{link_limit, set_limit, has_link, set_with, IsSubset};

use std::marker::Model;

/// The ID of a link: 0 to 14.
#[derive(Clone, Copy, Debug, PartialEq, Eq)]
pub struct LinkId {
    id: u8,
}

impl Model for LinkId {
    ghost use Rattle.std.specs.Prelude.{ℕ, ◌<◌};
    ghost use Rattle.wl_elem.specs.Links.{link_limit};

    ghost Value = { ℕ };

    ghost view = { λ l. l.id };

    ghost invariant = { λ l. l.id < link_limit };

    ghost inverse = { λ n. record { id = n } };
}

impl LinkId {
    /// The link of this ID. None exactly from 15 up.
    pub fn new(n: u8) -> Option<LinkId>
        ensures some { IsSome result ↔ (n < link_limit) }
        ensures value { IfSome result (λ l. l ≡ n) }
    {
        if n < 15 { Some(LinkId { id: n }) } else { None }
    }

    /// The ID, below 15.
    pub fn get(&self) -> u8
        ensures value { result ≡ self.now }
        ensures bound { result < link_limit }
    {
        self.id
    }
}

/// A set of links, kept as a bitmap: bit n for link n.
#[derive(Clone, Copy, Debug, PartialEq, Eq)]
pub struct LinkSet {
    bits: u16,
}

impl Model for LinkSet {
    ghost use Rattle.std.specs.Prelude.{ℕ, ◌<◌};
    ghost use Rattle.wl_elem.specs.Links.{set_limit};

    ghost Value = { ℕ };

    ghost view = { λ s. s.bits };

    ghost invariant = { λ s. s.bits < set_limit };

    ghost inverse = { λ n. record { bits = n } };
}

impl LinkSet {
    /// The set of this bitmap. None exactly where bit 15 is set.
    pub fn from_bits(bits: u16) -> Option<LinkSet>
        ensures some { IsSome result ↔ (bits < set_limit) }
        ensures value { IfSome result (λ s. s ≡ bits) }
    {
        if bits < 0x8000 {
            Some(LinkSet { bits })
        } else {
            None
        }
    }

    /// The bitmap, below 2^15.
    pub fn bits(&self) -> u16
        ensures value { result ≡ self.now }
        ensures bound { result < set_limit }
    {
        self.bits
    }

    /// Whether the link is in the set.
    pub fn has(&self, link: LinkId) -> bool
        ensures { result ≡ has_link self.now link }
    {
        (self.bits >> link.id) % 2 == 1
    }

    /// The set with this link in it.
    pub fn with(&self, link: LinkId) -> LinkSet
        ensures value { result ≡ set_with self.now link }
        ensures has { (k : ℕ) → k < link_limit → has_link result k ≡ (has_link self.now k || k == link) }
    {
        LinkSet {
            bits: self.bits | 1 << link.id,
        }
    }

    /// The set without this link.
    pub fn without(&self, link: LinkId) -> LinkSet
        ensures { (k : ℕ) → k < link_limit → has_link result k ≡ (has_link self.now k && not (k == link)) }
    {
        LinkSet {
            bits: self.bits & !(1 << link.id),
        }
    }

    /// How many links there are, at most 15.
    pub fn count(&self) -> u8
        ensures { result ≡ count_ones self.now }
    {
        self.bits.count_ones() as u8
    }

    /// Whether each link of this set is in the other.
    pub fn within(&self, other: LinkSet) -> bool
        ensures { IsTrue result ↔ IsSubset self.now other }
    {
        self.bits & other.bits == self.bits
    }
}
