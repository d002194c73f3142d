//! Laws of the definitions, each the contract of a function that does nothing.

ghost use Rattle.std.specs.Prelude.{◌≡◌, ℕ, ◌<◌, ◌^◌, Bool, List, Result, Ok, length};
ghost use Rattle.std.specs.List.{AllByRecursion};
ghost use Rattle.wl_elem.specs.declared.fault.Refusal.{Refusal};
ghost use Rattle.wl_frame.specs.declared.header.Kind.{Kind};
ghost use Rattle.wl_frame.specs.declared.header.Kind.TheVariants.{Qos, Action};
ghost use Rattle.wl_frame.specs.Frame.{FrameValue, FrameOf, IsKind};
ghost use Rattle.wl_frame.specs.Aad.{aad};
ghost use Rattle.wl_frame.specs.Nonce.{nonce, lane_of};
ghost use Rattle.wl_frame.specs.Refusals.{ReadAs};

/// Octets are read in one way: as one frame, or with one refusal, and never both.
pub fn read_once()
    ensures { (octets : List ℕ) (a b : Result FrameValue Refusal) → ReadAs octets a → ReadAs octets b → a ≡ b }
{}

/// A frame has one spelling.
pub fn spelled_once()
    ensures { (f : FrameValue) (octets other : List ℕ) → FrameOf f octets → FrameOf f other → octets ≡ other }
{}

/// All octets are read: as a frame, or with a refusal.
pub fn read_or_refused()
    ensures { (octets : List ℕ) → AllByRecursion (λ octet. octet < 256) octets → (reading : Result FrameValue Refusal) × ReadAs octets reading }
{}

/// What was encoded is decoded to the same frame.
pub fn round_trip()
    ensures { (f : FrameValue) (octets : List ℕ) (reading : Result FrameValue Refusal) → FrameOf f octets → ReadAs octets reading → reading ≡ Ok f }
{}

/// Nonces of one kind and one sender are equal only where their packet numbers are.
pub fn nonce_once()
    ensures { (kind : Kind) (a2 : List ℕ) (pn other : ℕ) → length a2 ≡ 6 → pn < 2 ^ 48 → other < 2 ^ 48 → nonce kind a2 pn ≡ nonce kind a2 other → pn ≡ other }
{}

/// Equal nonces of one sender are of one lane and one packet number.
pub fn nonce_tells_lane()
    ensures { (kind other : Kind) (a2 : List ℕ) (pn number : ℕ) → IsKind kind → IsKind other → length a2 ≡ 6 → pn < 2 ^ 48 → number < 2 ^ 48
        → nonce kind a2 pn ≡ nonce other a2 number → (lane_of kind ≡ lane_of other) × (pn ≡ number) }
{}

/// The AAD has 24 octets for data and 22 for Action.
pub fn aad_len()
    ensures data_len { (to_ap : Bool) (tid rest : ℕ) (a1 a2 a3 : List ℕ) → length a1 ≡ 6 → length a2 ≡ 6 → length a3 ≡ 6 → length (aad (Qos to_ap tid rest) a1 a2 a3) ≡ 24 }
    ensures action_len { (a1 a2 a3 : List ℕ) → length a1 ≡ 6 → length a2 ≡ 6 → length a3 ≡ 6 → length (aad Action a1 a2 a3) ≡ 22 }
{}
