//! The nine lanes of an end.

ghost use Rattle.std.specs.Prelude.{◌≡◌, ◌<◌, length, IfOk};
ghost use Rattle.wl_elem.specs.Lanes.{lane_index, lane_count};

use crate::lane_parts::LaneParts;
use std::alloc::Global;
use std::marker::Model;
use wl_elem::{Lane, Memory};

/// The greatest size of the window of a lane of data.
const DATA_ROOM: u16 = 256;

/// The size of the window of management, whose bodies go one at a time.
const MANAGEMENT_ROOM: u16 = 1;

/// The place of a lane among all nine.
fn place_of(lane: &Lane) -> usize
    ensures place { result ≡ lane_index lane.now }
    ensures bound { result < lane_count }
{
    usize::from(lane.index())
}

/// What an end keeps of each lane.
#[derive(Debug, Drop)]
pub(crate) struct Lanes {
    /// Nine.
    lanes: Vec<LaneParts>,
}

impl Model for Lanes {
    ghost use Rattle.std.specs.Prelude.{◌≡◌, List, length};
    ghost use Rattle.wl_elem.specs.Lanes.{lane_count};
    ghost use Rattle.wl_history.specs.EndState.{LaneState};

    ghost Value = { List LaneState };

    ghost view = { λ l. l.lanes.items };

    ghost invariant = { λ l. length l.lanes.items ≡ lane_count };
}

impl Lanes {
    ghost use Rattle.std.specs.Borrow.{sem};
    ghost use Rattle.wl_end.specs.Lending.{LendsLane};
    ghost use Rattle.wl_history.specs.EndState.{no_lanes};
    ghost use Rattle.wl_end.specs.Parts.{lane_of};

    /// Nothing is queued or received on any lane.
    pub fn new(alloc: Global) -> Result<Lanes, Memory>
        ensures { IfOk result (λ l. l ≡ no_lanes) }
    {
        let mut lanes = Vec::with_capacity(alloc, 9)?;
        'lanes: for _place in 0..8_u8 {
            lanes.push(LaneParts::new(alloc, DATA_ROOM)?)?;
        }
        lanes.push(LaneParts::new(alloc, MANAGEMENT_ROOM)?)?;
        Ok(Lanes { lanes })
    }

    /// What is kept of a lane.
    pub fn at(&self, lane: &Lane) -> &LaneParts
        ensures value { result.now ≡ lane_of self.now lane.now }
        ensures nine { length self.now ≡ lane_count }
    {
        &self.lanes[place_of(lane)]
    }

    /// What is kept of a lane, to be changed.
    pub fn at_mut(&mut self, lane: &Lane) -> &mut LaneParts
        ensures* writes_back { sem 𝓛 (LendsLane self.entry lane.now result) }
        ensures value { result.now ≡ lane_of self.old lane.now }
        ensures nine { length self.old ≡ lane_count }
    {
        &mut self.lanes[place_of(lane)]
    }
}
