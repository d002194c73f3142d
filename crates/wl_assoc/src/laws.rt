//! Laws of the definitions, each the contract of a function that does nothing of its own.

ghost use Rattle.std.specs.Prelude.{◌≡◌, ℕ, ◌<◌, ◌∷◌, Bool, List, Result, Ok, Err, map};
ghost use Rattle.std.specs.List.{AllByRecursion};
ghost use Rattle.wl_elem.specs.declared.fault.Refusal.{Refusal};
ghost use Rattle.wl_elem.specs.declared.why.Why.TheVariants.{RepeatedLink};
ghost use Rattle.wl_elem.specs.Element.{ElementValue};
ghost use Rattle.wl_mle.specs.declared.basic.BasicSub.{BasicSub};
ghost use Rattle.wl_assoc.specs.declared.association.AssocAsk.{AssocAsk};
ghost use Rattle.wl_assoc.specs.declared.association.AssocReply.{AssocReply};
ghost use Rattle.wl_assoc.specs.declared.links.LinkAsk.{LinkAsk};
ghost use Rattle.wl_assoc.specs.declared.links.LinkState.{LinkState};
ghost use Rattle.wl_assoc.specs.Association.{AskOf, ReplyOf, ReadsAsk, ReadsReply};
ghost use Rattle.wl_assoc.specs.Profiles.{AreProfileLinks, AsksAs, IsRepeated, ProfilesAs, StatesAs, repeated_at};

/// The body of a request is read in one way: as one value, or with one refusal, and never both.
pub fn ask_read_once()
    ensures { (body : List ℕ) (a b : Result AssocAsk Refusal) → ReadsAsk body a → ReadsAsk body b → a ≡ b }
{
    wl_elem::read_once();
}

/// The body of a response is read in one way: as one value, or with one refusal, and never both.
pub fn reply_read_once()
    ensures { (body : List ℕ) (a b : Result AssocReply Refusal) → ReadsReply body a → ReadsReply body b → a ≡ b }
{
    wl_elem::read_once();
}

/// All octets are read as the body of a request: as a value, or with a refusal.
pub fn ask_read_or_refused()
    ensures { (body : List ℕ) → AllByRecursion (λ octet. octet < 256) body → (reading : Result AssocAsk Refusal) × ReadsAsk body reading }
{
    wl_elem::read_or_refused();
}

/// All octets are read as the body of a response: as a value, or with a refusal.
pub fn reply_read_or_refused()
    ensures { (body : List ℕ) → AllByRecursion (λ octet. octet < 256) body → (reading : Result AssocReply Refusal) × ReadsReply body reading }
{
    wl_elem::read_or_refused();
}

/// A request has one body.
pub fn ask_spelled_once()
    ensures { (ask : AssocAsk) (body other : List ℕ) → AskOf ask body → AskOf ask other → body ≡ other }
{
    wl_elem::spelled_once();
}

/// A response has one body.
pub fn reply_spelled_once()
    ensures { (reply : AssocReply) (body other : List ℕ) → ReplyOf reply body → ReplyOf reply other → body ≡ other }
{
    wl_elem::spelled_once();
}

/// The encoded body of a request is decoded to the same value.
pub fn ask_round_trip()
    ensures { (ask : AssocAsk) (body : List ℕ) (reading : Result AssocAsk Refusal) → AskOf ask body → ReadsAsk body reading → reading ≡ Ok ask }
{
    wl_elem::read_once();
}

/// The encoded body of a response is decoded to the same value.
pub fn reply_round_trip()
    ensures { (reply : AssocReply) (body : List ℕ) (reading : Result AssocReply Refusal) → ReplyOf reply body → ReadsReply body reading → reading ≡ Ok reply }
{
    wl_elem::read_once();
}

/// A request says one thing of the links: one list, or one refusal, and never both.
pub fn asks_once()
    ensures { (ask : AssocAsk) (a b : Result (List LinkAsk) Refusal) → AsksAs ask a → AsksAs ask b → a ≡ b }
{
    wl_elem::read_once();
    wl_mle::read_once();
    wl_inherit::expanded_once();
}

/// A response says one thing of the links: one list, or one refusal, and never both.
pub fn states_once()
    ensures { (reply : AssocReply) (on : ℕ) (a b : Result (List LinkState) Refusal) → StatesAs reply on a → StatesAs reply on b → a ≡ b }
{
    wl_elem::read_once();
    wl_mle::read_once();
    wl_inherit::expanded_once();
}

/// Each request whose elements' bodies are octets says something of the links, or is refused.
pub fn asks_or_refused()
    ensures { (ask : AssocAsk) → AllByRecursion (λ e. AllByRecursion (λ octet. octet < 256) e.body) ask.elements
        → (reading : Result (List LinkAsk) Refusal) × AsksAs ask reading }
{
    wl_elem::read_or_refused();
    wl_elem::bodies_are_octets();
    wl_elem::items_are_octets();
    wl_mle::read_or_refused();
    wl_inherit::expanded_or_refused();
}

/// Each response whose elements' bodies are octets says something of the links, or is refused.
pub fn states_or_refused()
    ensures { (reply : AssocReply) (on : ℕ) → AllByRecursion (λ e. AllByRecursion (λ octet. octet < 256) e.body) reply.elements
        → (reading : Result (List LinkState) Refusal) × StatesAs reply on reading }
{
    wl_elem::read_or_refused();
    wl_elem::bodies_are_octets();
    wl_elem::items_are_octets();
    wl_mle::read_or_refused();
    wl_inherit::expanded_or_refused();
}

/// What a request says is of the links of its profiles: one entry for each, in their order, and no two
/// of one link.
pub fn asks_of_profiles()
    ensures { (ask : AssocAsk) (asks : List LinkAsk) → AsksAs ask (Ok asks) → AreProfileLinks ask.elements (map (λ a. a.link) asks) }
{}

/// What a response says is of the link that carries it, and then of those of its profiles, likewise.
pub fn states_of_profiles()
    ensures { (reply : AssocReply) (on : ℕ) (states : List LinkState) → StatesAs reply on (Ok states)
        → (own : LinkState) × (others : List LinkState) × (states ≡ own ∷ others) × (own.link ≡ on) × AreProfileLinks reply.elements (map (λ s. s.link) others) }
{}

/// Profiles are refused for a repeated link exactly where the first that fails a test has the link of
/// an earlier one, with its index.
pub fn repeated_link()
    ensures refused { (response : Bool) (outer : List ElementValue) (subs : List BasicSub) (sub : ℕ) → IsRepeated response outer subs sub → ProfilesAs response outer subs (Err (repeated_at sub)) }
    ensures only { (response : Bool) (outer : List ElementValue) (subs : List BasicSub) (refusal : Refusal) → ProfilesAs response outer subs (Err refusal) → refusal.why ≡ RepeatedLink
        → (sub : ℕ) × IsRepeated response outer subs sub × (refusal ≡ repeated_at sub) }
{}
