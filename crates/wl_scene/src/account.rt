//! What an end reports of itself.

ghost use Rattle.std.specs.Prelude.{◌≡◌, ◌++◌, ◌∷◌, [], ◌<◌, ◌^◌, length, OnOk, IfOk};
ghost use Rattle.wl_elem.specs.Lanes.{lane_index};
ghost use Rattle.wl_number.specs.Bookings.{booking_count};
ghost use Rattle.wl_history.specs.EndState.{lane_at};
ghost use Rattle.wl_end.specs.Parts.{frame_count};
ghost use Rattle.wl_frame.specs.Sealing.{Sealing};
ghost use Rattle.wl_air.specs.World.{Stands};
ghost use Rattle.wl_scene.specs.Account.{per_lane, IsTotals, IsReport};

use crate::laws::totals_are_reported;
use crate::policy::no_links;
use crate::report::report_line;
use crate::totals::{Released, Totals};
use std::alloc::Global;
use wl_air::World;
use wl_elem::{Bytes, Direction, EndId, Lane, Memory, Tid};
use wl_end::End;
use wl_history::{Journal, Positions, words_are_told};

/// The lane at a place among the nine.
fn lane_of(place: u8) -> Lane
    requires { place < 9 }
    ensures { lane_index result ≡ place }
{
    match Tid::new(place) {
        Some(tid) => Lane::Tid(tid),
        None => Lane::Management,
    }
}

/// How many bodies were queued on the lane at a place.
fn queued_on(end: &End, place: u8) -> u32
    requires { place < 9 }
    ensures { result ≡ length (lane_at end.now place).queue }
{
    end.queued(lane_of(place))
}

/// How many bodies were queued, by lane.
fn queued(end: &End) -> [u32; 9]
    ensures { result ≡ per_lane (λ l. length (lane_at end.now l).queue) }
{
    [
        queued_on(end, 0),
        queued_on(end, 1),
        queued_on(end, 2),
        queued_on(end, 3),
        queued_on(end, 4),
        queued_on(end, 5),
        queued_on(end, 6),
        queued_on(end, 7),
        queued_on(end, 8),
    ]
}

/// A copy of these positions.
fn copy_of(alloc: Global, positions: &[u32]) -> Result<Positions, Memory>
    ensures { IfOk result (λ p. p ≡ positions.now) }
{
    let list = Vec::from_slice(alloc, positions)?;
    Ok(Positions::from_vec(list))
}

/// Adds the positions that the lane at a place released.
fn push_released(alloc: Global, end: &End, place: u8, lanes: &mut Released) -> Result<(), Memory>
    requires { place < 9 }
    ensures { OnOk result (lanes.new ≡ lanes.old ++ (lane_at end.now place).released ∷ []) }
{
    let positions = copy_of(alloc, end.released(lane_of(place)))?;
    lanes.push(positions)
}

/// The positions released, by lane.
fn released(alloc: Global, end: &End) -> Result<Released, Memory>
    ensures { IfOk result (λ lanes. lanes ≡ per_lane (λ l. (lane_at end.now l).released)) }
{
    let mut lanes = Released::new(alloc);
    'lanes: for place in 0..9u8 {
        push_released(alloc, end, place, &mut lanes)?;
    }
    Ok(lanes)
}

/// What an end reports: how many frames it aired and how many numbers it booked, the key that it sends
/// under and the newest that it holds, the links set up and the mappings in force on them, and by lane
/// how many bodies it queued and which positions of its peer's queues it released. No EMLSR mode is in
/// force. `Memory` where there was none for the positions.
///
/// Conditions: fewer than 2^32 frames were aired, and fewer than 2^32 numbers booked.
pub fn end_totals(alloc: Global, end: &End) -> Result<Totals, Memory>
    requires frames { frame_count end.now.frames < 2 ^ 32 }
    requires booked { booking_count end.now.booked < 2 ^ 32 }
    ensures { IfOk result (IsTotals end.now) }
{
    let dl = end.agreed(Direction::Down).sets;
    let ul = end.agreed(Direction::Up).sets;
    let released = released(alloc, end)?;
    Ok(Totals {
        aired: end.aired_count(),
        booked: end.booked_count(),
        emlsr: no_links(),
        key: end.send_key(),
        links: end.links(),
        dl,
        ul,
        newest: end.newest(),
        queued: queued(end),
        released,
    })
}

/// The text of a report: one line of what both ends of a world report after its steps, for a world that
/// stands where the journal leaves it. `Memory` where there was none for the text.
///
/// Condition: the journal is the world's.
pub fn report_text(alloc: Global, journal: &Journal, world: &World) -> Result<Bytes, Memory>
    requires start { journal.now.start ≡ world.now.start }
    requires steps { journal.now.steps ≡ world.now.steps }
    ensures { IfOk result (λ out. (text : Sealing) → Stands text world.now → IsReport world.now.start world.now.steps out) }
{
    words_are_told();
    totals_are_reported();
    let ap = end_totals(alloc, world.end_of(EndId::Ap))?;
    let sta = end_totals(alloc, world.end_of(EndId::Sta))?;
    let steps = journal.steps.as_slice().len() as u32;
    report_line(alloc, &ap, &sta, steps)
}
