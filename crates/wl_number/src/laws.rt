//! Laws of the definitions, each the contract of a function that does nothing.

ghost use Rattle.std.specs.Prelude.{◌≡◌, ◌↔◌, ◌⊎◌, ◌<◌, ℕ, true, false, List, length};
ghost use Rattle.std.specs.List.{Contains};
ghost use Rattle.wl_elem.specs.declared.lane.Lane.{Lane};
ghost use Rattle.wl_elem.specs.Lanes.{lane_index};
ghost use Rattle.wl_number.specs.declared.numbers.Numbers.{Numbers};
ghost use Rattle.wl_number.specs.NumberObject.{NumberObject, after_draw, drawn, entered};
ghost use Rattle.wl_elem.specs.Pairs.{pair_below};
ghost use Rattle.wl_number.specs.OrderRule.{OrderRule, Precedes, NoneBreaks, is_below, list_at, list_of, same_pair, with_booking};

/// The rule stands with numbers exactly where no booking breaks it with them.
pub fn stands_exactly()
    ensures { (lanes : List (List Numbers)) (lane : Lane) (n : Numbers) → OrderRule lanes → lane_index lane < length lanes
        → NoneBreaks lanes lane n ↔ OrderRule (with_booking lanes lane n) }
{}

/// A booking adds its numbers to its lane, and nothing else.
pub fn adds_one()
    ensures { (lanes : List (List Numbers)) (lane : Lane) (n a : Numbers) (place : ℕ) → lane_index lane < length lanes
        → Contains (list_at (with_booking lanes lane n) place) a ↔ (((a ≡ n) × (place ≡ lane_index lane)) ⊎ Contains (list_at lanes place) a) }
{}

/// A pair of key and packet number is booked once.
pub fn booked_once()
    ensures { (lanes : List (List Numbers)) (place other : ℕ) (a b : Numbers) → OrderRule lanes → Contains (list_at lanes place) a → Contains (list_at lanes other) b
        → same_pair a b ≡ true → (place ≡ other) × (a ≡ b) }
{}

/// Of two bookings of a lane one comes before the other by position and by pair.
pub fn in_one_order()
    ensures { (lanes : List (List Numbers)) (place : ℕ) (a b : Numbers) → OrderRule lanes → Contains (list_at lanes place) a → Contains (list_at lanes place) b
        → (a ≡ b) ⊎ (Precedes a b ⊎ Precedes b a) }
{}

/// Pairs of key and packet number stand in one order: none is below itself, none below one that is
/// below it, and what is below the lower is below the higher.
pub fn pairs_in_order()
    ensures chain { (a b c : Numbers) → is_below a b ≡ true → is_below b c ≡ true → is_below a c ≡ true }
    ensures one_way { (a b : Numbers) → is_below a b ≡ true → is_below b a ≡ false }
    ensures itself { (a : Numbers) → is_below a a ≡ false }
{}

/// Of two bookings of a lane the one of lower pair has the lower position.
pub fn in_pair_order()
    ensures { (lanes : List (List Numbers)) (place : ℕ) (a b : Numbers) → OrderRule lanes → Contains (list_at lanes place) a → Contains (list_at lanes place) b
        → is_below a b ≡ true → a.pos < b.pos }
{}

/// Numbers whose pair is above all that are booked, and whose position is above those of the lane,
/// break the rule with none.
pub fn highest_breaks_none()
    ensures { (lanes : List (List Numbers)) (lane : Lane) (n : Numbers) → ((place : ℕ) (b : Numbers) → Contains (list_at lanes place) b → is_below b n ≡ true)
        → ((b : Numbers) → Contains (list_of lanes lane) b → b.pos < n.pos) → NoneBreaks lanes lane n }
{}

/// A draw is entered as any other numbers are, and its pair is above each that isn't above the last
/// one used.
pub fn a_draw_is_next()
    ensures enters { (o : NumberObject) (lane : Lane) → entered o lane (drawn o lane) ≡ after_draw o lane }
    ensures above { (o : NumberObject) (lane : Lane) (b : Numbers) → pair_below o.key o.last b.key b.pn ≡ false → is_below b (drawn o lane) ≡ true }
{}
