//! Look-ups in a lane's list of bookings, which ascends by position and by pair of key and packet
//! number alike. So a binary search by either finds a place, and no list is gone through.

ghost use Rattle.std.specs.Prelude.{◌≡◌, ◌≢◌, ◌≤◌, ◌+◌, ℕ, if◌then◌else◌, is_ok, IfSome, IfNone, OnErr};
ghost use Rattle.std.specs.List.{Contains};
ghost use Rattle.std.specs.Vec.{vec_len, vec_capacity};
ghost use Rattle.wl_number.specs.declared.numbers.Numbers.{Numbers};
ghost use Rattle.wl_elem.specs.Pairs.{pair_below};
ghost use Rattle.wl_number.specs.OrderRule.{crossed, clash, Ascending, entered_in};
ghost use Rattle.wl_number.specs.Places.{IsPlace, has_lower_position, has_lower_pair, comes_before, NoClash, FirstClash, lower_of};

use crate::numbers::Numbers;
use wl_elem::Memory;

/// Whether a pair of key and packet number is below another, the key first.
fn is_pair_below(key: u16, pn: u64, other_key: u16, other_pn: u64) -> bool
    ensures { result ≡ pair_below key pn other_key other_pn }
{
    key < other_key || (key == other_key && pn < other_pn)
}

/// Whether two bookings stand in one order by position and in the other by pair.
fn is_crossed(a: Numbers, b: Numbers) -> bool
    ensures { result ≡ crossed a b }
{
    (a.pos < b.pos && is_pair_below(b.key, b.pn, a.key, a.pn))
        || (b.pos < a.pos && is_pair_below(a.key, a.pn, b.key, b.pn))
}

/// Whether two bookings can't both stand; `own` where they are of one lane.
fn is_clash(own: bool, a: Numbers, b: Numbers) -> bool
    ensures { result ≡ clash own a b }
{
    (a.key == b.key && a.pn == b.pn) || (own && (a.pos == b.pos || is_crossed(a, b)))
}

/// How many bookings have lower positions: they are the first ones of the list.
fn place_of_position(list: &[Numbers], pos: u32) -> usize
    requires { Ascending list.now }
    ensures { IsPlace (has_lower_position pos) list.now result }
{
    list.partition_point(|b| b.pos < pos)
}

/// How many bookings have lower pairs: they are the first ones of the list.
fn place_of_pair(list: &[Numbers], key: u16, pn: u64) -> usize
    requires { Ascending list.now }
    ensures { IsPlace (has_lower_pair key pn) list.now result }
{
    list.partition_point(|b| is_pair_below(b.key, b.pn, key, pn))
}

/// The booking at this position.
pub fn booked_at(list: &[Numbers], pos: u32) -> Option<Numbers>
    requires { Ascending list.now }
    ensures booked { IfSome result (Contains list.now) }
    ensures position { IfSome result (λ n. n.pos ≡ pos) }
    ensures none { IfNone result ((n : Numbers) → Contains list.now n → n.pos ≢ pos) }
{
    match list.get(place_of_position(list, pos)) {
        Some(b) if b.pos == pos => Some(*b),
        _ => None,
    }
}

/// The position of the booking with this pair.
pub fn position_with(list: &[Numbers], key: u16, pn: u64) -> Option<u32>
    requires { Ascending list.now }
    ensures booked { IfSome result (λ pos. Contains list.now (record { pos = pos; key = key; pn = pn })) }
    ensures none { IfNone result ((pos : ℕ) → Contains list.now (record { pos = pos; key = key; pn = pn }) → ⊥) }
{
    match list.get(place_of_pair(list, key, pn)) {
        Some(b) if b.key == key && b.pn == pn => Some(b.pos),
        _ => None,
    }
}

/// The first booking that can clash with these numbers: those before it have a lower pair and, in the
/// own lane, a lower position.
fn clash_place(list: &[Numbers], own: bool, n: Numbers) -> usize
    requires { Ascending list.now }
    ensures { IsPlace (comes_before own n) list.now result }
{
    let by_pair = place_of_pair(list, n.key, n.pn);
    if own {
        return by_pair.min(place_of_position(list, n.pos));
    }
    by_pair
}

/// The first booking of a list that clashes with these numbers, which is the one of least pair; `own`
/// where they are of this list's lane. None exactly where none clashes.
pub fn first_clash(list: &[Numbers], own: bool, n: Numbers) -> Option<Numbers>
    requires { Ascending list.now }
    ensures some { IfSome result (FirstClash own n list.now) }
    ensures none { IfNone result (NoClash own n list.now) }
{
    match list.get(clash_place(list, own, n)) {
        Some(b) if is_clash(own, n, *b) => Some(*b),
        _ => None,
    }
}

/// The one of lower pair of those that are there, of two alike the first.
pub fn lower(kept: Option<Numbers>, found: Option<Numbers>) -> Option<Numbers>
    ensures { result ≡ lower_of kept found }
{
    match (kept, found) {
        (None, found) => found,
        (Some(a), None) => Some(a),
        (Some(a), Some(b)) if is_pair_below(b.key, b.pn, a.key, a.pn) => Some(b),
        (Some(a), Some(_)) => Some(a),
    }
}

/// Puts numbers at their place by position. A booking above all others is a push.
pub fn enter(list: &mut Vec<Numbers>, n: Numbers) -> Result<(), Memory>
    requires { Ascending list.old.items }
    ensures items { list.new.items ≡ (if is_ok result then entered_in n list.old.items else list.old.items) }
    ensures len { vec_len list.new ≡ (if is_ok result then vec_len list.old + 1 else vec_len list.old) }
    ensures capacity { vec_capacity list.old ≤ vec_capacity list.new }
    ensures room { OnErr result (vec_capacity list.old ≤ vec_len list.old) }
{
    let place = place_of_position(list.as_slice(), n.pos);
    list.insert(place, n)?;
    Ok(())
}
