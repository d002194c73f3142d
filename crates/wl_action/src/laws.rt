//! Laws of the definitions, each the contract of a function that does nothing of its own.

ghost use Rattle.std.specs.Prelude.{◌≡◌, ℕ, ◌<◌, List, Result, Ok};
ghost use Rattle.std.specs.List.{AllByRecursion};
ghost use Rattle.wl_elem.specs.declared.fault.Refusal.{Refusal};
ghost use Rattle.wl_action.specs.declared.action.Action.{Action};
ghost use Rattle.wl_elem.specs.declared.known.Known.{Known};
ghost use Rattle.wl_action.specs.declared.known.KnownValue.{KnownValue};
ghost use Rattle.wl_action.specs.Known.{ReadAs as KnownAs};
ghost use Rattle.wl_action.specs.Action.{ReadAs, ActionOf};

/// A body is read in one way: as one value, or with one refusal, and never both.
pub fn read_once()
    ensures { (body : List ℕ) (a b : Result Action Refusal) → ReadAs body a → ReadAs body b → a ≡ b }
{
    wl_elem::read_once();
    wl_ttlm::read_once();
    wl_mle::read_once();
}

/// A value has one body.
pub fn spelled_once()
    ensures { (value : Action) (body other : List ℕ) → ActionOf value body → ActionOf value other → body ≡ other }
{
    wl_elem::spelled_once();
}

/// All octets are read: as a value, or with a refusal.
pub fn read_or_refused()
    ensures { (body : List ℕ) → AllByRecursion (λ octet. octet < 256) body → (reading : Result Action Refusal) × ReadAs body reading }
{
    wl_elem::read_or_refused();
    wl_elem::bodies_are_octets();
    wl_ttlm::read_or_refused();
    wl_mle::read_or_refused();
}

/// What was encoded is decoded to the same value.
pub fn round_trip()
    ensures { (value : Action) (body : List ℕ) (reading : Result Action Refusal) → ActionOf value body → ReadAs body reading → reading ≡ Ok value }
{
    read_once();
}

/// A body of an element that is decoded where it stands is read in one way.
pub fn known_read_once()
    ensures { (known : Known) (body : List ℕ) (a b : Result KnownValue Refusal) → KnownAs known body a → KnownAs known body b → a ≡ b }
{
    wl_ttlm::read_once();
    wl_mle::read_once();
}

/// All octets are read as such a body: as a value, or with a refusal.
pub fn known_read_or_refused()
    ensures { (known : Known) (body : List ℕ) → AllByRecursion (λ octet. octet < 256) body → (reading : Result KnownValue Refusal) × KnownAs known body reading }
{
    wl_ttlm::read_or_refused();
    wl_mle::read_or_refused();
}
