//! The recipient's window.

ghost use Rattle.std.specs.Prelude.{◌≡◌, ◌+◌, ◌-◌, ◌^◌, ◌<◌, ◌≤◌, ℕ, Bool, true, false, [], ◌∷◌, length, drop, max, Result, IfOk, IfErr, IfSome, IfNone, MatchResult, is_some};
ghost use Rattle.std.specs.List.{insert as inserted};
ghost use Rattle.std.specs.VecDeque.{deque_len, deque_capacity};
ghost use Rattle.wl_window.specs.Numbering.{distance, full};
ghost use Rattle.wl_window.specs.Queue.{received};
ghost use Rattle.wl_window.specs.Placing.{IsGap, Takes};
ghost use Rattle.wl_window.specs.Reordering.{holds, placed, IsRising, advanced};

use crate::distance::distance_to;
use crate::numbers12::Numbers12;
use crate::refusal::ArriveRefusal;
use crate::slot::Slot;
use crate::ups::Ups;
use std::alloc::Global;
use std::collections::VecDeque;
use std::marker::Model;
use wl_elem::Memory;

/// The receive reordering buffer of a block ack agreement (IEEE Std 802.11, 10.25.6).
///
/// ```text
///   passed up or given up │ start                         start + size │ ahead
///   ──────────────────────┼───────────────────────────────────────────┼──────
///                         │  missing   stored   missing   stored       │
/// ```
///
/// The number at the start is missing; what is stored waits for it. A number past the end moves the
/// window, so that it is the last one. Numbers on the air have 12 bits: one that is less than 2,048
/// ahead of the start is ahead, every other one is behind. A sender that keeps within its window is
/// never so far off, since windows have at most 1,024 numbers.
#[derive(Debug, Drop)]
pub struct Reorder<T> {
    /// The first number that was neither passed up nor given up, in full.
    start: u32,
    /// The greatest size.
    room: u16,
    /// What is stored, by rising number.
    slots: VecDeque<Slot<T>>,
}

impl<T> Model for Reorder<T> {
    ghost use Rattle.wl_window.specs.Reordering.{Store};

    ghost Value = { Store T };

    ghost use Rattle.std.specs.Prelude.{◌≡◌};
    ghost use Rattle.std.specs.VecDeque.{deque_capacity};
    ghost use Rattle.wl_window.specs.Reordering.{IsStore};

    ghost view = { λ r. record { room = r.room; window = record { start = r.start; slots = r.slots.items } } };

    ghost invariant = { λ r. IsStore (record { room = r.room; window = record { start = r.start; slots = r.slots.items } }) × (deque_capacity r.slots ≡ r.room) };
}

/// The full number of these 12 bits. None exactly where it is 2,048 or more ahead of the start.
fn number_ahead(start: u32, number: u16) -> Option<u32>
    requires { start < 2 ^ 32 - 4096 }
    ensures ahead { IfSome result (λ at. (at ≡ full start number) × (distance start number < 2048)) }
    ensures behind { IfNone result (2048 ≤ distance start number) }
{
    let ahead = distance_to(start, number);
    if ahead >= 2048 {
        return None;
    }
    Some(start + u32::from(ahead))
}

/// Where a window of this size starts once it has a number that isn't behind it.
fn start_with(start: u32, number: u32, size: u16) -> u32
    requires { number < 2 ^ 32 - 1 }
    ensures { result ≡ max start (number + 1 - size) }
{
    start.max((number + 1).saturating_sub(u32::from(size)))
}

/// Where a slot of this number is, or its place.
fn place_of<T>(slots: &VecDeque<Slot<T>>, number: u32) -> Result<usize, usize>
    requires { (high : ℕ) × IsRising 0 high slots.now.items }
    ensures { MatchResult result (λ _. holds number slots.now.items ≡ true) (IsGap number slots.now.items) }
{
    slots.binary_search_by_key(&number, |slot| slot.number)
}

/// Whether there is a slot of this number.
fn is_stored<T>(slots: &VecDeque<Slot<T>>, number: u32) -> bool
    requires { (high : ℕ) × IsRising 0 high slots.now.items }
    ensures { result ≡ holds number slots.now.items }
{
    place_of(slots, number).is_ok()
}

/// Puts a slot in at a place, where there is room. It takes no memory: the slots before the place are
/// turned behind the others, and then back, since what `VecDeque::insert` ensures leaves open whether
/// it takes more.
fn insert<T>(slots: &mut VecDeque<Slot<T>>, place: usize, slot: Slot<T>)
    requires within { place ≤ deque_len slots.old }
    requires room { deque_len slots.old < deque_capacity slots.old }
    ensures slots { slots.new.items ≡ inserted slots.old.items place slot }
    ensures kept { deque_capacity slots.new ≡ deque_capacity slots.old }
{
    slots.rotate_left(place);
    slots.push_front_reserved(slot);
    slots.rotate_right(place);
}

/// Takes the first slot, unless its number is past the start.
fn take_due<T>(slots: &mut VecDeque<Slot<T>>, start: u32) -> Option<Slot<T>>
    ensures taken { Takes start slots.old.items result slots.new.items }
    ensures kept { deque_capacity slots.new ≡ deque_capacity slots.old }
{
    match slots.front() {
        Some(slot) if slot.number <= start => slots.pop_front(),
        _ => None,
    }
}

/// Moves the window to `to`: what is below goes up, and then the run from there on. The new start.
///
/// Both are one pass over slots that rise: one below the start goes up as it is, one at the start moves
/// it on, and one past it is where a number is missing.
fn advance<T>(slots: &mut VecDeque<Slot<T>>, to: u32, up: &mut Ups<T>) -> u32
    requires rising { IsRising 0 (2 ^ 32 - 1) slots.old.items }
    requires spare { length (advanced to slots.old.items).up ≤ up.old.spare }
    ensures window { let moved = advanced to slots.old.items in (result ≡ moved.window.start) × (slots.new.items ≡ moved.window.slots) }
    ensures up { let moved = advanced to slots.old.items in up.new ≡ received up.old moved.up }
    ensures kept { deque_capacity slots.new ≡ deque_capacity slots.old }
{
    let mut start = to;
    'due: while let Some(slot) = take_due(slots, start) {
        start = start.max(slot.number + 1);
        up.push(slot.item);
    }
    start
}

/// What would go up of a window that moves.
#[derive(Clone, Copy)]
struct Due {
    /// How many items.
    count: usize,
    /// Where the window starts then.
    start: u32,
}

/// What would go up of the slots from an index on, where the window moves to `to`. It looks at no
/// more slots than would go up, and at the one behind them.
fn due_from<T>(slots: &VecDeque<Slot<T>>, first: usize, to: u32) -> Due
    requires within { first ≤ deque_len slots.now }
    requires rising { IsRising 0 (2 ^ 32 - 1) (drop first slots.now.items) }
    ensures due { let moved = advanced to (drop first slots.now.items) in (result.count ≡ length moved.up) × (result.start ≡ moved.window.start) }
    ensures limit { first + result.count ≤ deque_len slots.now }
{
    let mut start = to;
    'due: for index in first..slots.len() {
        let number = slots[index].number;
        if number > start {
            return Due {
                count: index - first,
                start,
            };
        }
        start = start.max(number + 1);
    }
    Due {
        count: slots.len() - first,
        start,
    }
}

/// How many items would go up where the window moves to `to` and has a slot more, of a missing number
/// from there on.
///
/// Without the slot the run ends at a missing number. Where that is the slot's, it goes up too, and
/// so does the run behind it.
fn due_with<T>(slots: &VecDeque<Slot<T>>, missing: u32, to: u32) -> usize
    requires rising { IsRising 0 (2 ^ 32 - 1) slots.now.items }
    requires absent { holds missing slots.now.items ≡ false }
    requires ahead { to ≤ missing }
    requires high { missing < 2 ^ 32 - 1 }
    requires few { deque_len slots.now < 2 ^ 32 }
    ensures count { (item : T) → result ≡ length (advanced to (placed (record { number = missing; item = item }) slots.now.items)).up }
    ensures limit { result ≤ deque_len slots.now + 1 }
{
    let before = due_from(slots, 0, to);
    if before.start < missing {
        return before.count;
    }
    before.count + 1 + due_from(slots, before.count, missing + 1).count
}

impl<T> Reorder<T> {
    ghost use Rattle.wl_window.specs.Queue.{Queue};
    ghost use Rattle.wl_window.specs.Reordering.{IsStore, arrived, requested, stored_numbers, answer, up_count, window_after, queue_after, up_count_requested, window_requested, queue_requested};

    /// A window that starts at 0 with nothing stored, whose size may be up to `slots`. It takes memory
    /// for exactly so many items, and no call on it ever takes more. `Memory` where there was none for
    /// so many.
    pub fn new(alloc: Global, slots: u16) -> Result<Reorder<T>, Memory>
        requires { (1 ≤ slots) × (slots ≤ 1024) }
        ensures { IfOk result (λ r. r ≡ record { room = slots; window = record { start = 0; slots = [] } }) }
    {
        let empty = VecDeque::with_capacity(alloc, usize::from(slots))?;
        Ok(Reorder {
            start: 0,
            room: slots,
            slots: empty,
        })
    }

    /// Takes the item of a frame with these 12 bits, while the window has this size. What can go up
    /// then goes to the end of `up`, in order: as many items as `due_on_arrival` says.
    ///
    /// OldNumber exactly where the number is 2,048 or more ahead of the start, Double exactly where it
    /// isn't and is stored already; both hand the item back and change nothing. It takes no memory.
    pub fn arrive(
        &mut self,
        number: u16,
        size: u16,
        item: T,
        up: &mut Ups<T>,
    ) -> Result<(), ArriveRefusal<T>>
    where
        T: Drop,
        requires size { (1 ≤ size) × (size ≤ self.old.room) }
        requires start { self.old.window.start < 2 ^ 32 - 4096 }
        requires spare { up_count (arrived self.old.window number size item) ≤ up.old.spare }
        ensures answer { result ≡ answer item (arrived self.old.window number size item) }
        ensures window { self.new.window ≡ window_after self.old.window (arrived self.old.window number size item) }
        ensures up { up.new ≡ queue_after up.old (arrived self.old.window number size item) }
        ensures room { self.new.room ≡ self.old.room }
        ensures sound { IsStore self.new }
    {
        let Some(number) = number_ahead(self.start, number) else {
            return Err(ArriveRefusal::OldNumber(item));
        };
        let Err(place) = place_of(&self.slots, number) else {
            return Err(ArriveRefusal::Double(item));
        };
        insert(&mut self.slots, place, Slot { number, item });
        let to = start_with(self.start, number, size);
        self.start = advance(&mut self.slots, to, up);
        Ok(())
    }

    /// How many items would go up if a frame with these 12 bits arrived now, while the window has this
    /// size: 0 where it would be refused. `arrive` needs room in `up` for exactly so many.
    ///
    /// It looks at no more slots than would go up and the one behind them, besides a binary search.
    pub fn due_on_arrival(&self, number: u16, size: u16) -> u16
        requires size { (1 ≤ size) × (size ≤ self.now.room) }
        requires start { self.now.window.start < 2 ^ 32 - 4096 }
        ensures count { (item : T) → result ≡ up_count (arrived self.now.window number size item) }
        ensures limit { result ≤ length self.now.window.slots + 1 }
    {
        let Some(number) = number_ahead(self.start, number) else {
            return 0;
        };
        if is_stored(&self.slots, number) {
            return 0;
        }
        due_with(&self.slots, number, start_with(self.start, number, size)) as u16
    }

    /// Moves the window to these 12 bits. What is below goes up, and then the run from there on: as many
    /// items as `due_on_request` says.
    ///
    /// False exactly where they are the start's own or 2,048 and more ahead of it; then nothing
    /// changes. It takes no memory.
    pub fn request(&mut self, start: u16, up: &mut Ups<T>) -> bool
        requires start { self.old.window.start < 2 ^ 32 - 4096 }
        requires spare { up_count_requested (requested self.old.window start) ≤ up.old.spare }
        ensures answer { result ≡ is_some (requested self.old.window start) }
        ensures window { self.new.window ≡ window_requested self.old.window (requested self.old.window start) }
        ensures up { up.new ≡ queue_requested up.old (requested self.old.window start) }
        ensures room { self.new.room ≡ self.old.room }
        ensures sound { IsStore self.new }
    {
        let ahead = distance_to(self.start, start);
        if ahead == 0 || ahead >= 2048 {
            return false;
        }
        self.start = advance(&mut self.slots, self.start + u32::from(ahead), up);
        true
    }

    /// How many items would go up if the window were asked now to move to these 12 bits: 0 where it
    /// wouldn't move. `request` needs room in `up` for exactly so many.
    ///
    /// It looks at no more slots than would go up, and at the one behind them.
    pub fn due_on_request(&self, start: u16) -> u16
        requires { self.now.window.start < 2 ^ 32 - 4096 }
        ensures count { result ≡ up_count_requested (requested self.now.window start) }
        ensures limit { result ≤ length self.now.window.slots }
    {
        // At the start itself nothing is stored, so nothing is due there.
        let Some(to) = number_ahead(self.start, start) else {
            return 0;
        };
        due_from(&self.slots, 0, to).count as u16
    }

    /// The stored numbers, in the window's order, in place of what `out` had.
    pub fn stored(&self, out: &mut Numbers12)
        ensures { out.new ≡ stored_numbers self.now.window.slots }
    {
        let mut numbers = Numbers12::new();
        'slots: for slot in self.slots.iter() {
            numbers.push((slot.number % 4096) as u16);
        }
        *out = numbers;
    }

    /// The first number that was neither passed up nor given up, in full.
    pub fn start(&self) -> u32
        ensures value { result ≡ self.now.window.start }
        ensures sound { IsStore self.now }
    {
        self.start
    }

    /// For how many items it has memory: the greatest size, no more and no less.
    pub fn capacity(&self) -> u16
        ensures value { result ≡ self.now.room }
        ensures sound { IsStore self.now }
    {
        self.slots.capacity() as u16
    }

    /// How many items are stored: fewer than the greatest size.
    pub fn held(&self) -> u16
        ensures value { result ≡ length self.now.window.slots }
        ensures limit { result < self.now.room }
        ensures sound { IsStore self.now }
    {
        self.slots.len() as u16
    }
}
