//! What an end reports.

ghost use Rattle.std.specs.Prelude.{◌≡◌, ◌++◌, ◌∷◌, [], OnOk, OnErr};

use std::alloc::Global;
use std::marker::Model;
use wl_elem::{LinkSet, Memory};
use wl_history::Positions;

/// Positions by lane, management last.
#[derive(Debug, Drop)]
pub struct Released {
    lanes: Vec<Positions>,
}

impl Model for Released {
    ghost use Rattle.std.specs.Prelude.{List, ℕ};

    ghost Value = { List (List ℕ) };

    ghost view = { λ r. r.lanes.items };
}

impl Released {
    /// No lanes. It takes no memory.
    pub fn new(alloc: Global) -> Released
        ensures { result ≡ [] }
    {
        Released {
            lanes: Vec::new(alloc),
        }
    }

    /// Adds the positions of the next lane. After `Memory` the lanes are as they were.
    pub fn push(&mut self, positions: Positions) -> Result<(), Memory>
        ensures ok { OnOk result (self.new ≡ self.old ++ positions ∷ []) }
        ensures err { OnErr result (self.new ≡ self.old) }
    {
        self.lanes.push(positions)?;
        Ok(())
    }

    /// The lanes as a slice.
    pub fn as_slice(&self) -> &[Positions]
        ensures { result.now ≡ self.now }
    {
        self.lanes.as_slice()
    }
}

/// What one end reports of its history.
#[derive(Debug, Drop)]
pub struct Totals {
    /// Frames sent.
    pub aired: u32,
    /// Bookings made.
    pub booked: u32,
    /// The links of the EMLSR mode in force; none where it is off.
    pub emlsr: LinkSet,
    /// The key number that it sends under.
    pub key: u16,
    /// The links set up.
    pub links: LinkSet,
    /// The links in force for each TID downlink; none where none is set up.
    pub dl: [LinkSet; 8],
    /// The links in force for each TID uplink; none where none is set up.
    pub ul: [LinkSet; 8],
    /// The newest key number that it holds.
    pub newest: u16,
    /// Bodies queued by lane, management last.
    pub queued: [u32; 9],
    /// The positions of the peer's queues released here, by lane, management last.
    pub released: Released,
}
