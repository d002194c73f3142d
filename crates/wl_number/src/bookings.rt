//! The book of the numbers that an end gave.

ghost use Rattle.std.specs.Prelude.{◌≡◌, ◌-◌, ◌^◌, ◌<◌, ◌≤◌, ℕ, if◌then◌else◌, is_ok, slice_set, IfSome, IfNone, IfErr, OnOk, OnErr};
ghost use Rattle.wl_elem.specs.declared.lane.Lane.{Lane};
ghost use Rattle.wl_elem.specs.Lanes.{lane_index, lane_count};
ghost use Rattle.wl_number.specs.declared.numbers.Numbers.{Numbers};
ghost use Rattle.wl_number.specs.declared.numbers.BookFault.TheVariants.{Memory as NoMemory};
ghost use Rattle.wl_number.specs.OrderRule.{Ascending, NoneBreaks, LeastBreaks, list_at, entered_in, with_booking};
ghost use Rattle.wl_number.specs.Bookings.{made, no_bookings, lists_of, HasRoom, IsBook, IsFault, booking_count, BookedAt, BookedWith};

use crate::numbers::{BookFault, Numbers};
use crate::places::{booked_at, enter, first_clash, lower, position_with};
use std::alloc::Global;
use std::marker::Model;
use wl_elem::{Lane, Memory, Tid};

/// The lane at a place among all nine.
fn lane_at(place: usize) -> Lane
    requires { place < lane_count }
    ensures { lane_index result ≡ place }
{
    match Tid::new(place as u8) {
        Some(tid) => Lane::Tid(tid),
        None => Lane::Management,
    }
}

/// The place of a lane among all nine.
fn place_of(lane: &Lane) -> usize
    ensures place { result ≡ lane_index lane.now }
    ensures bound { result < lane_count }
{
    usize::from(lane.index())
}

/// The list at a place.
fn list_in(lanes: &[Vec<Numbers>; 9], place: usize) -> &[Numbers]
    requires { place < lane_count }
    ensures { result.now ≡ list_at (lists_of lanes.now) place }
{
    lanes[place].as_slice()
}

/// Puts numbers into the list at a place.
fn enter_at(lanes: &mut [Vec<Numbers>; 9], place: usize, n: Numbers) -> Result<(), Memory>
    requires place { place < lane_count }
    requires ascending { Ascending (list_at (lists_of lanes.old) place) }
    ensures lists { lists_of lanes.new ≡ (if is_ok result then slice_set (lists_of lanes.old) place (entered_in n (list_at (lists_of lanes.old) place)) else lists_of lanes.old) }
    ensures kept { (spare : ℕ) → HasRoom lanes.old spare → HasRoom lanes.new (if is_ok result then spare - 1 else spare) }
    ensures room { (spare : ℕ) → HasRoom lanes.old spare → OnErr result (spare ≡ 0) }
{
    enter(&mut lanes[place], n)
}

/// Makes room in each list for one booking more.
fn make_room(lanes: &mut [Vec<Numbers>; 9]) -> Result<(), Memory>
    requires { HasRoom lanes.old 0 }
    ensures lists { lists_of lanes.new ≡ lists_of lanes.old }
    ensures kept { HasRoom lanes.new 0 }
    ensures room { OnOk result (HasRoom lanes.new 1) }
{
    'lanes: for place in 0..lanes.len() {
        lanes[place].reserve(1)?;
    }
    Ok(())
}

/// The bookings of an end: one list a lane, ascending.
///
/// In each lane the bookings stand in the same order by position as by key and packet number, and no
/// two of the end have the same key and packet number (IEEE Std 802.11, 12.5.3.3), in whatever order
/// they are booked. Look-ups are binary searches, one a lane.
#[derive(Debug, Drop)]
pub struct Bookings {
    lanes: [Vec<Numbers>; 9],
    spare: u32,
}

impl Model for Bookings {
    ghost use Rattle.wl_number.specs.Bookings.{Book, made, lists_of, IsKept};

    ghost Value = { Book };

    ghost view = { λ b. made (lists_of b.lanes) b.spare };

    ghost invariant = { λ b. IsKept b.lanes b.spare };
}

impl Bookings {
    /// No bookings. It takes no memory.
    pub fn new(alloc: Global) -> Bookings
        ensures { result ≡ made no_bookings 0 }
    {
        Bookings {
            lanes: [
                Vec::new(alloc),
                Vec::new(alloc),
                Vec::new(alloc),
                Vec::new(alloc),
                Vec::new(alloc),
                Vec::new(alloc),
                Vec::new(alloc),
                Vec::new(alloc),
                Vec::new(alloc),
            ],
            spare: 0,
        }
    }

    /// The booking of least key and packet number that these numbers would break the order with: one
    /// of the same key and packet number, or one of the same lane at the same position, or that stands
    /// in one order by position and in the other by key and packet number. None exactly where the
    /// numbers can be booked. It takes no memory.
    pub fn breaks(&self, lane: Lane, n: Numbers) -> Option<Numbers>
        ensures is_book { IsBook self.now.lanes }
        ensures some { IfSome result (LeastBreaks self.now.lanes lane n) }
        ensures none { IfNone result (NoneBreaks self.now.lanes lane n) }
    {
        let lanes = &self.lanes;
        let own = place_of(&lane);
        let mut kept = None;
        'lanes: for place in 0..lanes.len() {
            kept = lower(kept, first_clash(list_in(lanes, place), place == own, n));
        }
        kept
    }

    /// Books numbers on a lane. `Wasted` exactly where they would break the order, with the booking
    /// that `breaks` gives. Where `spare` is at least 1 it takes no memory. After an error nothing has
    /// changed.
    pub fn book(&mut self, lane: Lane, n: Numbers) -> Result<(), BookFault>
        requires some { 1 ≤ n.pn }
        requires bound { n.pn < 2 ^ 48 }
        ensures booked { OnOk result (self.new ≡ made (with_booking self.old.lanes lane n) (self.old.spare - 1)) }
        ensures stands { OnOk result (NoneBreaks self.old.lanes lane n) }
        ensures fault { IfErr result (IsFault self.old.lanes lane n) }
        ensures room { IfErr result (λ fault. fault ≡ NoMemory → self.old.spare ≡ 0) }
        ensures unchanged { OnErr result (self.new ≡ self.old) }
        ensures is_book { IsBook self.new.lanes }
    {
        let place = place_of(&lane);
        if let Some(kept) = self.breaks(lane, n) {
            return Err(BookFault::Wasted { presented: n, kept });
        }
        enter_at(&mut self.lanes, place, n)?;
        self.spare = self.spare.saturating_sub(1);
        Ok(())
    }

    /// Makes room for one booking more, on whatever lane: `spare` is at least 1 then, and the bookings
    /// are as before. After `Memory` nothing has changed.
    pub fn reserve(&mut self) -> Result<(), Memory>
        ensures lanes { self.new.lanes ≡ self.old.lanes }
        ensures room { OnOk result (1 ≤ self.new.spare) }
        ensures kept { self.old.spare ≤ self.new.spare }
        ensures unchanged { OnErr result (self.new ≡ self.old) }
    {
        if self.spare > 0 {
            return Ok(());
        }
        make_room(&mut self.lanes)?;
        self.spare = 1;
        Ok(())
    }

    /// How many bookings more take no memory, on whatever lanes.
    pub fn spare(&self) -> u32
        ensures { result ≡ self.now.spare }
    {
        self.spare
    }

    /// How many bookings there are.
    pub fn count(&self) -> u32
        requires { booking_count self.now.lanes < 2 ^ 32 }
        ensures { result ≡ booking_count self.now.lanes }
    {
        let lanes = &self.lanes;
        let mut count = 0;
        'lanes: for place in 0..lanes.len() {
            count += list_in(lanes, place).len() as u32;
        }
        count
    }

    /// The booking of a lane at a position. None exactly where there is none.
    pub fn at(&self, lane: Lane, pos: u32) -> Option<Numbers>
        ensures is_book { IsBook self.now.lanes }
        ensures some { IfSome result (BookedAt self.now.lanes lane pos) }
        ensures none { IfNone result ((n : Numbers) → BookedAt self.now.lanes lane pos n → ⊥) }
    {
        booked_at(list_in(&self.lanes, place_of(&lane)), pos)
    }

    /// The lane and the position of the booking with this key and packet number. None exactly where
    /// there is none.
    pub fn of_pair(&self, key: u16, pn: u64) -> Option<(Lane, u32)>
        ensures is_book { IsBook self.now.lanes }
        ensures some { IfSome result (λ found. BookedWith self.now.lanes found.0 found.1 key pn) }
        ensures none { IfNone result ((lane : Lane) (pos : ℕ) → BookedWith self.now.lanes lane pos key pn → ⊥) }
    {
        let lanes = &self.lanes;
        'lanes: for place in 0..lanes.len() {
            if let Some(pos) = position_with(list_in(lanes, place), key, pn) {
                return Some((lane_at(place), pos));
            }
        }
        None
    }
}
