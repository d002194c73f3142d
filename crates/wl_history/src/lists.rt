//! Lists of numbers in answers.

ghost use Rattle.std.specs.Prelude.{◌≡◌, ◌++◌, ◌∷◌, ◌≤◌, [], length, OnOk, OnErr, IfOk};

use std::alloc::Global;
use std::marker::Model;
use wl_elem::{List, Memory};

/// Positions in a lane's queue, in the order in which they were released.
#[derive(Debug, Drop)]
pub struct Positions {
    list: Vec<u32>,
}

impl Model for Positions {
    ghost use Rattle.std.specs.Prelude.{List, ℕ};

    ghost Value = { List ℕ };

    ghost view = { λ p. p.list.items };
}

impl Positions {
    /// No positions. It takes no memory.
    pub fn new(alloc: Global) -> Positions
        ensures { result ≡ [] }
    {
        Positions {
            list: Vec::new(alloc),
        }
    }

    /// These positions. It takes no memory.
    pub fn from_vec(list: Vec<u32>) -> Positions
        ensures { result ≡ list.items }
    {
        Positions { list }
    }

    /// Adds a position at the end. After `Memory` the list is as it was.
    pub fn push(&mut self, pos: u32) -> Result<(), Memory>
        ensures ok { OnOk result (self.new ≡ self.old ++ pos ∷ []) }
        ensures err { OnErr result (self.new ≡ self.old) }
    {
        self.list.push(pos)?;
        Ok(())
    }

    /// The same positions again, in room that was taken before. It takes no memory.
    pub fn copy_into(&self, room: PositionsRoom) -> Positions
        requires { length self.now ≤ room }
        ensures { result ≡ self.now }
    {
        let mut list = room.list;
        match list.extend_from_slice(self.list.as_slice()) {
            Ok(()) => Positions { list },
            Err(_) => unreachable!(),
        }
    }

    /// The positions as a slice.
    pub fn as_slice(&self) -> &[u32]
        ensures { result.now ≡ self.now }
    {
        self.list.as_slice()
    }
}

/// Room for positions: so many fit. It is taken before something changes that can't be undone.
#[derive(Drop)]
pub struct PositionsRoom {
    list: Vec<u32>,
}

impl Model for PositionsRoom {
    ghost use Rattle.std.specs.Prelude.{◌≡◌, ℕ, []};
    ghost use Rattle.std.specs.Vec.{vec_capacity};

    ghost Value = { ℕ };

    ghost view = { λ r. vec_capacity r.list };

    ghost invariant = { λ r. r.list.items ≡ [] };
}

impl PositionsRoom {
    /// Room for this many positions.
    pub fn new(alloc: Global, count: u16) -> Result<PositionsRoom, Memory>
        ensures { IfOk result (λ r. count ≤ r) }
    {
        let list = Vec::with_capacity(alloc, usize::from(count))?;
        Ok(PositionsRoom { list })
    }
}

/// Sequence numbers below 4,096, in window order.
pub type SequenceNumbers = List<u16>;
