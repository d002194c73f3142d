//! What goes up from a lane's window.

ghost use Rattle.std.specs.Prelude.{◌≡◌, ◌+◌, ◌≤◌, ◌<◌, ◌++◌, [], length, slice_set};
ghost use Rattle.std.specs.Vec.{vec_len, vec_capacity};
ghost use Rattle.wl_elem.specs.Lanes.{lane_index};
ghost use Rattle.wl_replay.specs.Replay.{last_of};
ghost use Rattle.wl_history.specs.EndState.{let_up};

use wl_elem::Lane;
use wl_history::{Arrival, Positions};
use wl_replay::ReplayGuard;
use wl_window::Ups;

/// What came of a body that a lane's window took.
#[derive(Debug, Drop)]
pub(crate) enum Heard {
    /// Its number is behind the window.
    Old,
    /// Its number is stored already.
    Doubled,
    /// It was stored, and these positions were released.
    Stored(Positions),
}

/// Releases what went up and is above the lane's last pair, one after the other, and drops the rest.
/// It takes no memory where there is room for all positions.
pub(crate) fn release(
    ups: &mut Ups<Arrival>,
    guard: &mut ReplayGuard,
    lane: &Lane,
    released: &mut Vec<u32>,
    up: &mut Vec<u32>,
)
    requires place { lane_index lane.now < length guard.old }
    requires room { vec_len released.old + length ups.old.items ≤ vec_capacity released.old }
    requires up_room { vec_len up.old + length ups.old.items ≤ vec_capacity up.old }
    ensures released { released.new.items ≡ released.old.items ++ (let_up (last_of guard.old lane.now) ups.old.items).positions }
    ensures up { up.new.items ≡ up.old.items ++ (let_up (last_of guard.old lane.now) ups.old.items).positions }
    ensures last { guard.new ≡ slice_set guard.old (lane_index lane.now) (let_up (last_of guard.old lane.now) ups.old.items).last }
    ensures drained { ups.new.items ≡ [] }
{
    'ups: while let Some(arrival) = ups.take_first() {
        let n = &arrival.numbers;
        if guard.admit(*lane, n.key, n.pn) {
            released.push_reserved(n.pos);
            up.push_reserved(n.pos);
        }
    }
}
