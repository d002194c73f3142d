//! Laws of cutting, for lists of either kind, each the contract of a function that does nothing.

ghost use Rattle.std.specs.Prelude.{◌≡◌, ℕ, ◌<◌, List, false, length};
ghost use Rattle.std.specs.List.{AllByRecursion};
ghost use Rattle.wl_elem.specs.declared.item.Item.{Item};
ghost use Rattle.wl_elem.specs.declared.kind.ListKind.{ListKind};
ghost use Rattle.wl_elem.specs.declared.why.Why.{Why};
ghost use Rattle.wl_elem.specs.Items.{IsItem, Items, CutOrRefused, IsOfOctets, items_len};
ghost use Rattle.wl_elem.specs.Row.{IsCutOff};

/// Octets are cut into one list of items.
pub fn items_read_once()
    ensures { (kind : ListKind) (list other : List Item) (octets : List ℕ) → Items kind list octets → Items kind other octets → list ≡ other }
{}

/// A list of items has one spelling.
pub fn items_spelled_once()
    ensures { (kind : ListKind) (list : List Item) (octets other : List ℕ) → Items kind list octets → Items kind list other → octets ≡ other }
{}

/// Each list of items has a spelling.
pub fn items_spelled()
    ensures { (kind : ListKind) (list : List Item) → AllByRecursion (IsItem kind) list → (octets : List ℕ) × Items kind list octets }
{}

/// All octets are cut into items, or refused at a piece.
pub fn items_cut_or_refused()
    ensures { (kind : ListKind) (octets : List ℕ) → AllByRecursion (λ octet. octet < 256) octets → CutOrRefused kind octets }
{}

/// What is cut into items isn't refused.
pub fn items_not_both()
    ensures { (kind : ListKind) (list : List Item) (octets : List ℕ) (left : ℕ) (why : Why) → Items kind list octets → IsCutOff kind false octets left why → ⊥ }
{}

/// Octets are refused at one place, with one name.
pub fn cut_off_once()
    ensures { (kind : ListKind) (octets : List ℕ) (a b : ℕ) (v w : Why) → IsCutOff kind false octets a v → IsCutOff kind false octets b w → (a ≡ b) × (v ≡ w) }
{}

/// The items of octets are of octets.
pub fn items_are_octets()
    ensures { (kind : ListKind) (list : List Item) (octets : List ℕ) → AllByRecursion (λ octet. octet < 256) octets → Items kind list octets → AllByRecursion IsOfOctets list }
{}

/// How many octets a list of items is written in.
pub fn items_length()
    ensures { (kind : ListKind) (list : List Item) (octets : List ℕ) → Items kind list octets → length octets ≡ items_len list }
{}
