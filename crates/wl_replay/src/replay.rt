//! The pairs below which nothing is taken again.

ghost use Rattle.std.specs.Prelude.{◌≡◌, ◌<◌, if◌then◌else◌, length};
ghost use Rattle.wl_elem.specs.Lanes.{lane_index, lane_count};
ghost use Rattle.wl_elem.specs.Pairs.{pair_below};
ghost use Rattle.wl_replay.specs.Replay.{no_pairs, last_of, is_above, with_last};

use std::marker::Model;
use wl_elem::Lane;

/// A key number and a packet number under this key.
#[derive(Clone, Copy, Debug, PartialEq, Eq)]
pub struct Pair {
    /// The number of the temporal key.
    pub key: u16,
    /// The packet number.
    pub pn: u64,
}

impl Pair {
    /// Whether another key and packet number are above these, the key first.
    fn is_below(self, key: u16, pn: u64) -> bool
        ensures { result ≡ pair_below self.key self.pn key pn }
    {
        self.key < key || (self.key == key && self.pn < pn)
    }
}

/// The replay counters of a receiver: for each lane the pair of key and packet number of the last
/// frame that went up. What isn't above it was there before, or comes too late (IEEE Std 802.11,
/// 12.5.3.4.4). It takes no memory.
#[derive(Clone, Copy, Debug, PartialEq, Eq)]
pub struct ReplayGuard {
    last: [Option<Pair>; 9],
}

impl Model for ReplayGuard {
    ghost use Rattle.std.specs.Prelude.{◌≡◌, List, Option, length};
    ghost use Rattle.wl_elem.specs.Lanes.{lane_count};
    ghost use Rattle.wl_replay.specs.declared.replay.Pair.{Pair};

    ghost Value = { List (Option Pair) };

    ghost view = { λ g. g.last };

    ghost invariant = { λ g. length g.last ≡ lane_count };

    ghost inverse = { λ pairs. record { last = pairs } };
}

impl ReplayGuard {
    /// Nothing went up yet.
    pub fn new() -> ReplayGuard
        ensures { result ≡ no_pairs }
    {
        ReplayGuard { last: [None; 9] }
    }

    /// Whether a pair is above the lane's last. True where there is none yet.
    pub fn above(&self, lane: Lane, key: u16, pn: u64) -> bool
        ensures { result ≡ is_above (last_of self.now lane) key pn }
    {
        match self.last(lane) {
            Some(last) => last.is_below(key, pn),
            None => true,
        }
    }

    /// Takes a pair of a lane that is above its last: it is the last then. True exactly where it is
    /// above; otherwise nothing changes.
    pub fn admit(&mut self, lane: Lane, key: u16, pn: u64) -> bool
        ensures above { result ≡ is_above (last_of self.old lane) key pn }
        ensures last { self.new ≡ (if result then with_last self.old lane key pn else self.old) }
    {
        let place = place_of(&lane);
        if !self.above(lane, key, pn) {
            return false;
        }
        self.last[place] = Some(Pair { key, pn });
        true
    }

    /// The lane's last pair. None where nothing went up yet.
    pub fn last(&self, lane: Lane) -> Option<Pair>
        ensures value { result ≡ last_of self.now lane }
        ensures nine { length self.now ≡ lane_count }
    {
        self.last[place_of(&lane)]
    }
}

/// The place of a lane among all nine.
fn place_of(lane: &Lane) -> usize
    ensures place { result ≡ lane_index lane.now }
    ensures bound { result < lane_count }
{
    usize::from(lane.index())
}
