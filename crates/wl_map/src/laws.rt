//! Laws of the definitions, each the contract of a function that does nothing.

ghost use Rattle.std.specs.Prelude.{◌≡◌, ◌<◌, ◌≢◌, ◌↔◌, ◌∷◌, ℕ, Bool, true, false, List, All, is_some, Some};
ghost use Rattle.wl_elem.specs.declared.lane.Direction.{Direction};
ghost use Rattle.wl_elem.specs.Links.{set_limit};
ghost use Rattle.wl_ttlm.specs.declared.mapping.Mapping.{Mapping};
ghost use Rattle.wl_ttlm.specs.Mapping.{IsMapping, is_mapping};
ghost use Rattle.wl_map.specs.declared.agreed.Agreed.{Agreed};
ghost use Rattle.wl_map.specs.declared.agreed.Agreed.TheVariants as agreed;
ghost use Rattle.wl_map.specs.declared.change.Change.{Change};
ghost use Rattle.wl_map.specs.declared.change.MapAsk.{MapAsk};
ghost use Rattle.wl_map.specs.Agreeing.{is_valid_change, sets_of, changed};
ghost use Rattle.wl_map.specs.Ends.{MapState, opened, of_direction, agreed_sets, after_ask, after_on_ask, after_reply, status_of, takes_reply, closed};
ghost use Rattle.wl_map.specs.Calls.{Call, AreCalls, after_calls};

use wl_ttlm::a_mapping_passes;

/// A change is valid exactly where each bitmap of what it leads to is one of links, with bit 15 clear,
/// and each TID has a link then, and only links set up. With no link set up none is.
pub fn valid_exactly()
    ensures words { (links : ℕ) (before : Agreed) (change : Change) → links < set_limit
        → (is_valid_change links before change ≡ true) ↔ (All (λ set. set < set_limit) (sets_of links (changed links before change)) × IsMapping links (sets_of links (changed links before change))) }
    ensures no_link { (set : ℕ) (sets : List ℕ) → is_mapping 0 (set ∷ sets) ≡ false }
{
    a_mapping_passes();
}

/// After any calls each TID of a direction that isn't the default has a link, and only links set up;
/// and where a link is set up, so has each TID of every direction.
pub fn each_tid_has_a_link()
    ensures explicit { (deny : Bool) (start : ℕ) (calls : List Call) (d : Direction) (mapping : Mapping) → start < set_limit → AreCalls calls
        → of_direction d (after_calls (opened deny start) calls) ≡ agreed.Sets mapping
        → IsMapping (after_calls (opened deny start) calls).links mapping.sets }
    ensures every { (deny : Bool) (start : ℕ) (calls : List Call) (d : Direction) → start < set_limit → AreCalls calls
        → (after_calls (opened deny start) calls).links ≢ 0
        → IsMapping (after_calls (opened deny start) calls).links (agreed_sets d (after_calls (opened deny start) calls)) }
{
    a_mapping_passes();
}

/// While no reply is taken the mappings of an asker are what they were. An ask changes neither
/// direction, nor does giving it up; a reply that isn't taken changes nothing, and one that isn't of
/// success no mapping; and while an ask stands, each ask of the peer is denied.
pub fn an_asker_waits()
    ensures asking { (s : MapState) (ask : MapAsk) (d : Direction) → of_direction d (after_ask s ask) ≡ of_direction d s }
    ensures giving_up { (s : MapState) (d : Direction) → of_direction d (closed s) ≡ of_direction d s }
    ensures untaken { (s : MapState) (token status : ℕ) → takes_reply s token ≡ false → after_reply s token status ≡ s }
    ensures refused { (s : MapState) (token status : ℕ) (d : Direction) → status ≢ 0 → of_direction d (after_reply s token status) ≡ of_direction d s }
    ensures denying { (s : MapState) (ask : MapAsk) → is_some s.asked ≡ true → status_of s ask ≡ 133 }
    ensures denied { (s : MapState) (ask : MapAsk) → is_some s.asked ≡ true → after_on_ask s ask ≡ s }
{}

/// An ask that is answered with success leaves both ends with the same mapping, once the reply is
/// taken: in each direction that they had alike before, over the same links.
pub fn both_agree()
    ensures { (asker answerer : MapState) (ask : MapAsk) (d : Direction) → asker.asked ≡ Some ask → status_of answerer ask ≡ 0
        → asker.links ≡ answerer.links → of_direction d asker ≡ of_direction d answerer
        → of_direction d (after_reply asker ask.token 0) ≡ of_direction d (after_on_ask answerer ask) }
{}
