//! Laws of the definitions, each the contract of a function that does nothing.

ghost use Rattle.std.specs.Prelude.{◌≡◌, ℕ, ◌<◌, List, Result, Ok, IsTrue};
ghost use Rattle.std.specs.List.{AllByRecursion};
ghost use Rattle.wl_elem.specs.declared.fault.Refusal.{Refusal};
ghost use Rattle.wl_elem.specs.Element.{ElementValue, has_shape};
ghost use Rattle.wl_elem.specs.ElementList.{ReadAs, Elems};

/// Octets are read in one way: as one list, or with one refusal, and never both.
pub fn read_once()
    ensures { (octets : List ℕ) (a b : Result (List ElementValue) Refusal) → ReadAs octets a → ReadAs octets b → a ≡ b }
{}

/// A list has one spelling.
pub fn spelled_once()
    ensures { (list : List ElementValue) (octets other : List ℕ) → Elems list octets → Elems list other → octets ≡ other }
{}

/// Each list of elements has a spelling.
pub fn spelled()
    ensures { (list : List ElementValue) → AllByRecursion (λ e. IsTrue (has_shape e.id e.ext)) list → (octets : List ℕ) × Elems list octets }
{}

/// All octets are read: as a list, or with a refusal.
pub fn read_or_refused()
    ensures { (octets : List ℕ) → AllByRecursion (λ octet. octet < 256) octets → (reading : Result (List ElementValue) Refusal) × ReadAs octets reading }
{}

/// What was written is read as the list that was written, and as nothing else.
pub fn read_what_was_written()
    ensures { (list : List ElementValue) (octets : List ℕ) (reading : Result (List ElementValue) Refusal)
        → Elems list octets → ReadAs octets reading → reading ≡ Ok list }
{}

/// The elements of octets have bodies of octets.
pub fn bodies_are_octets()
    ensures { (list : List ElementValue) (octets : List ℕ) → AllByRecursion (λ octet. octet < 256) octets → Elems list octets
        → AllByRecursion (λ e. AllByRecursion (λ octet. octet < 256) e.body) list }
{}
