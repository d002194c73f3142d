//! Laws of the definitions, each the contract of a function that does nothing.

ghost use Rattle.std.specs.Prelude.{◌≡◌, ℕ, ◌<◌, ◌≤◌, [], List, Option, Some, Result, Ok, false};
ghost use Rattle.std.specs.List.{AllByRecursion};
ghost use Rattle.wl_elem.specs.declared.fault.Refusal.{Refusal};
ghost use Rattle.wl_elem.specs.Element.{ElementValue};
ghost use Rattle.wl_elem.specs.Identity.{extended_id, non_inheritance};
ghost use Rattle.wl_inherit.specs.declared.non_inheritance.NonInheritance.{NonInheritance};
ghost use Rattle.wl_inherit.specs.NonInheritance.{ReadAs, NonOf};
ghost use Rattle.wl_inherit.specs.Identity.{IsIdentity, has_any, is_non, of_identity};
ghost use Rattle.wl_inherit.specs.Inheritance.{Nons, ExpandsAs, expanded, expected};
ghost use Rattle.wl_inherit.specs.Shrunk.{IsRegained, dropped_count, shrunk};

/// A body is read in one way: as one value, or with one refusal, and never both.
pub fn read_once()
    ensures { (body : List ℕ) (a b : Result NonInheritance Refusal) → ReadAs body a → ReadAs body b → a ≡ b }
{}

/// All octets are read: as a value, or with a refusal.
pub fn read_or_refused()
    ensures { (body : List ℕ) → AllByRecursion (λ octet. octet < 256) body → (reading : Result NonInheritance Refusal) × ReadAs body reading }
{}

/// A value has one body.
pub fn spelled_once()
    ensures { (n : NonInheritance) (body other : List ℕ) → NonOf n body → NonOf n other → body ≡ other }
{}

/// What was encoded is decoded to the same value.
pub fn round_trip()
    ensures { (n : NonInheritance) (body : List ℕ) (reading : Result NonInheritance Refusal) → NonOf n body → ReadAs body reading → reading ≡ Ok n }
{}

/// A profile is expanded in one way: to one list, or with one refusal, and never both.
pub fn expanded_once()
    ensures { (outer profile : List ElementValue) (a b : Result (List ElementValue) Refusal) → ExpandsAs outer profile a → ExpandsAs outer profile b → a ≡ b }
{}

/// Each profile whose bodies are octets is expanded, or refused.
pub fn expanded_or_refused()
    ensures { (outer profile : List ElementValue) → AllByRecursion (λ e. AllByRecursion (λ octet. octet < 256) e.body) profile
        → (reading : Result (List ElementValue) Refusal) × ExpandsAs outer profile reading }
{}

/// What the expanded list has of each identity. It has no Non-Inheritance element.
pub fn expanded_by_identity()
    ensures each { (outer profile list : List ElementValue) (nons : List NonInheritance) → Nons profile nons → list ≡ expanded nons outer profile
        → (id : ℕ) (ext : Option ℕ) → is_non id ext ≡ false → of_identity id ext list ≡ expected nons outer profile id ext }
    ensures none { (outer profile list : List ElementValue) (nons : List NonInheritance) → Nons profile nons → list ≡ expanded nons outer profile
        → of_identity extended_id (Some non_inheritance) list ≡ [] }
{}

/// What was shrunk is expanded, and only so, to a list that has the full list's elements of each
/// identity.
pub fn shrunk_expands_to_full()
    ensures { (outer full : List ElementValue) → AllByRecursion (λ e. IsIdentity e.id e.ext) outer → has_any extended_id (Some non_inheritance) full ≡ false
        → dropped_count outer full ≤ 252 → IsRegained outer full (shrunk outer full) }
{}
