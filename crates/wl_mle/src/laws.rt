//! Laws of the definitions, each the contract of a function that does nothing of its own.

ghost use Rattle.std.specs.Prelude.{◌≡◌, ℕ, ◌<◌, List, Result, Ok};
ghost use Rattle.std.specs.List.{AllByRecursion};
ghost use Rattle.wl_elem.specs.declared.fault.Refusal.{Refusal};
ghost use Rattle.wl_mle.specs.declared.multi_link.MultiLink.{MultiLink};
ghost use Rattle.wl_mle.specs.MultiLink.{ReadAs, MlOf};

/// A body is read in one way: as one value, or with one refusal, and never both.
pub fn read_once()
    ensures { (body : List ℕ) (a b : Result MultiLink Refusal) → ReadAs body a → ReadAs body b → a ≡ b }
{
    wl_elem::items_read_once();
    wl_elem::items_not_both();
    wl_elem::cut_off_once();
}

/// A value has one body.
pub fn spelled_once()
    ensures { (value : MultiLink) (body other : List ℕ) → MlOf value body → MlOf value other → body ≡ other }
{
    wl_elem::items_spelled_once();
}

/// All octets are read: as a value, or with a refusal.
pub fn read_or_refused()
    ensures { (body : List ℕ) → AllByRecursion (λ octet. octet < 256) body → (reading : Result MultiLink Refusal) × ReadAs body reading }
{
    wl_elem::items_cut_or_refused();
    wl_elem::items_are_octets();
}

/// What was encoded is decoded to the same value.
pub fn round_trip()
    ensures { (value : MultiLink) (body : List ℕ) (reading : Result MultiLink Refusal) → MlOf value body → ReadAs body reading → reading ≡ Ok value }
{
    read_once();
}
