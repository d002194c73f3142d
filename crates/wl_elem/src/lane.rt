//! Ends, directions, TIDs and lanes.

ghost use Rattle.std.specs.Prelude.{◌≡◌, ◌↔◌, ◌<◌, IsSome, IfSome};
ghost use Rattle.wl_elem.specs.Lanes.{lane_index, lane_count, peer_of};

use std::marker::Model;

/// A traffic identifier of QoS data: 0 to 7.
#[derive(Clone, Copy, Debug, PartialEq, Eq)]
pub struct Tid {
    tid: u8,
}

impl Model for Tid {
    ghost use Rattle.std.specs.Prelude.{ℕ, ◌<◌};

    ghost Value = { ℕ };

    ghost view = { λ t. t.tid };

    ghost invariant = { λ t. t.tid < 8 };

    ghost inverse = { λ n. record { tid = n } };
}

impl Tid {
    /// The TID of this number. None exactly from 8 up.
    pub fn new(n: u8) -> Option<Tid>
        ensures some { IsSome result ↔ (n < 8) }
        ensures value { IfSome result (λ t. t ≡ n) }
    {
        if n < 8 { Some(Tid { tid: n }) } else { None }
    }

    /// The number, below 8.
    pub fn get(&self) -> u8
        ensures value { result ≡ self.now }
        ensures bound { result < 8 }
    {
        self.tid
    }
}

/// One of the two ends of an association.
#[derive(Clone, Copy, Debug, PartialEq, Eq)]
pub enum EndId {
    /// The AP MLD.
    Ap,
    /// The station MLD.
    Sta,
}

impl EndId {
    /// The other end.
    pub fn peer(self) -> EndId
        ensures { result ≡ peer_of self }
    {
        match self {
            EndId::Ap => EndId::Sta,
            EndId::Sta => EndId::Ap,
        }
    }
}

/// The direction of data.
#[derive(Clone, Copy, Debug, PartialEq, Eq)]
pub enum Direction {
    /// From the AP to the station.
    Down,
    /// From the station to the AP.
    Up,
}

/// What an end numbers and queues apart: a TID's data, or management.
#[derive(Clone, Copy, Debug, PartialEq, Eq)]
pub enum Lane {
    /// The data of a TID.
    Tid(Tid),
    /// Management bodies.
    Management,
}

impl Lane {
    /// The place of the lane among all nine: a TID is its own number, management is 8.
    pub fn index(self) -> u8
        ensures place { result ≡ lane_index self }
        ensures bound { result < lane_count }
    {
        match self {
            Lane::Tid(tid) => tid.tid,
            Lane::Management => 8,
        }
    }
}
