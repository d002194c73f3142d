//! One lane of an end.

ghost use Rattle.std.specs.Prelude.{◌≡◌, ◌+◌, ◌-◌, ◌^◌, ◌<◌, ◌≤◌, ◌++◌, ◌∷◌, [], List, ℕ, false, length, IfOk, IfSome, OnOk, OnErr};
ghost use Rattle.wl_window.specs.Reordering.{IsStore, arrived, requested, stored_numbers};
ghost use Rattle.wl_window.specs.Originating.{Sending, IsSending, is_done, is_booked, booked_count, reserved, with_booked, acked, given_up, base_answer, sending_after, granted_answer, newly_answer, sending_acked};
ghost use Rattle.wl_elem.specs.Lanes.{lane_index};
ghost use Rattle.wl_replay.specs.Replay.{last_of};
ghost use Rattle.wl_history.specs.Words.{body_at};
ghost use Rattle.wl_end.specs.Listening.{heard_of, HeardFits, lane_after, lane_heard, pairs_after, up_of, lane_passed, pairs_passed};

use crate::bodies::Bodies;
use crate::entries::fill;
use crate::heard::{Heard, release};
use std::alloc::Global;
use std::marker::Model;
use wl_elem::{Bytes, Lane, Memory};
use wl_history::{Arrival, Positions};
use wl_replay::ReplayGuard;
use wl_window::{ArriveRefusal, MoveRefusal, Numbers12, Origin, OriginRefusal, Reorder, Ups};

/// What an end keeps of a lane: the sender's side, and the receiver's.
#[derive(Debug, Drop)]
pub(crate) struct LaneParts {
    /// The bodies queued, in order.
    queue: Bodies,
    /// Which positions are granted, booked and done.
    origin: Origin,
    /// What is received and waits.
    reorder: Reorder<Arrival>,
    /// What went up and isn't released or dropped yet: nothing between two calls.
    ups: Ups<Arrival>,
    /// The positions released, in order.
    released: Vec<u32>,
    /// By position, whether the booking was aired.
    aired: Vec<bool>,
}

impl Model for LaneParts {
    ghost use Rattle.std.specs.Vec.{vec_capacity};
    ghost use Rattle.wl_history.specs.EndState.{LaneState};
    ghost use Rattle.wl_end.specs.Parts.{IsLaneKept};

    ghost Value = { LaneState };

    ghost view = { λ l. record { queue = l.queue; sending = l.origin.sending; window = l.reorder.window; released = l.released.items; aired = l.aired.items; room = l.reorder.room } };

    ghost invariant = { λ l. IsLaneKept l.queue l.reorder l.ups.items (vec_capacity l.aired) };
}

impl LaneParts {
    ghost use Rattle.wl_history.specs.EndState.{LaneState, no_lane, was_aired_at, aired_at};
    ghost use Rattle.wl_end.specs.Parts.{IsShort, window_limit};

    /// Nothing is queued or received, and the window may have up to this size.
    pub fn new(alloc: Global, room: u16) -> Result<LaneParts, Memory>
        requires { (1 ≤ room) × (room ≤ window_limit) }
        ensures { IfOk result (λ l. l ≡ record no_lane { room = room }) }
    {
        let reorder = Reorder::new(alloc, room)?;
        Ok(LaneParts {
            queue: Bodies::new(alloc),
            origin: Origin::new(alloc),
            reorder,
            ups: Ups::new(alloc),
            released: Vec::new(alloc),
            aired: Vec::new(alloc),
        })
    }

    /// Puts a body at the end of the queue. After `Memory` nothing has changed.
    pub fn queue(&mut self, body: Bytes) -> Result<(), Memory>
        requires short { IsShort body }
        requires countable { length self.old.queue < 2 ^ 32 - 1 }
        ensures ok { OnOk result (self.new ≡ record self.old { queue = self.old.queue ++ body ∷ [] }) }
        ensures err { OnErr result (self.new ≡ self.old) }
    {
        let more = (self.queue.len() + 1).saturating_sub(self.aired.len());
        self.aired.reserve(more)?;
        self.queue.push(body)
    }

    /// How many bodies were queued, below 2^32.
    pub fn queued(&self) -> u32
        ensures { result ≡ length self.now.queue }
    {
        self.queue.len() as u32
    }

    /// The body at a position, of at most 2,304 octets: none from the queue's length up.
    pub fn body(&self, pos: u32) -> &[u8]
        ensures value { result.now ≡ body_at self.now.queue pos }
        ensures short { IsShort result.now }
    {
        match self.queue.get(pos as usize) {
            Some(body) => body,
            None => &[],
        }
    }

    /// Lets a position go, where the window has this size.
    pub fn reserve(&mut self, size: u16) -> Result<(), OriginRefusal>
        requires { self.old.sending.granted ≤ length self.old.queue }
        ensures answer { result ≡ granted_answer (reserved self.old.sending (length self.old.queue) size) }
        ensures after { self.new ≡ record self.old { sending = sending_after self.old.sending (reserved self.old.sending (length self.old.queue) size) } }
        ensures unchanged { OnErr result (self.new ≡ self.old) }
    {
        let queued = self.queue.len() as u32;
        self.origin.reserve(queued, size)
    }

    /// Takes a position back that was let go and isn't booked.
    pub fn give_back(&mut self)
        requires { booked_count self.old.sending < self.old.sending.granted }
        ensures { self.new ≡ record self.old { sending = record self.old.sending { granted = self.old.sending.granted - 1 } } }
    {
        self.origin.give_back();
    }

    /// Books a position that was let go. After `Memory` nothing has changed.
    pub fn book(&mut self, pos: u32) -> Result<(), Memory>
        requires granted { booked_count self.old.sending < self.old.sending.granted }
        requires free { is_booked self.old.sending pos ≡ false }
        requires limit { pos < 2 ^ 32 - 1 }
        ensures ok { OnOk result (self.new ≡ record self.old { sending = with_booked self.old.sending pos }) }
        ensures err { OnErr result (self.new ≡ self.old) }
    {
        self.origin.booked(pos)
    }

    /// Whether a position is done.
    pub fn is_done(&self, pos: u32) -> bool
        ensures { result ≡ is_done self.now.sending pos }
    {
        self.origin.is_done(pos)
    }

    /// Whether the booking at a position was aired.
    pub fn was_aired(&self, pos: u32) -> bool
        ensures { result ≡ was_aired_at self.now.aired pos }
    {
        match self.aired.get(pos as usize) {
            Some(aired) => *aired,
            None => false,
        }
    }

    /// Notes that the booking at a position is aired. It takes no memory.
    pub fn air(&mut self, pos: u32)
        requires { pos < length self.old.queue }
        ensures { self.new ≡ record self.old { aired = aired_at pos self.old.aired } }
    {
        let place = pos as usize;
        fill(&mut self.aired, place, false);
        self.aired[place] = true;
    }

    /// Takes an ack. None exactly where it is old; then nothing changes.
    pub fn ack(&mut self, start: u16, stored: &[u16]) -> Option<u32>
        ensures answer { result ≡ newly_answer (acked self.old.sending start stored.now) }
        ensures after { self.new ≡ record self.old { sending = sending_acked self.old.sending (acked self.old.sending start stored.now) } }
    {
        self.origin.ack(start, stored)
    }

    /// Gives all positions below this one up. The new base; where it is refused nothing changes.
    pub fn advance(&mut self, to: u32) -> Result<u32, MoveRefusal>
        ensures answer { result ≡ base_answer (given_up self.old.sending to) }
        ensures after { self.new ≡ record self.old { sending = sending_after self.old.sending (given_up self.old.sending to) } }
    {
        self.origin.advance(to)
    }

    /// The first number that was neither passed up nor given up, in full.
    pub fn start(&self) -> u32
        ensures { result ≡ self.now.window.start }
    {
        self.reorder.start()
    }

    /// How many numbers are stored.
    pub fn held(&self) -> u16
        ensures value { result ≡ length self.now.window.slots }
        ensures limit { result ≤ 256 }
    {
        self.reorder.held()
    }

    /// The stored numbers, in the window's order.
    pub fn stored(&self) -> Numbers12
        ensures { result ≡ stored_numbers self.now.window.slots }
    {
        let mut numbers = Numbers12::new();
        self.reorder.stored(&mut numbers);
        numbers
    }

    /// The positions released, in order.
    pub fn released(&self) -> &[u32]
        ensures { result.now ≡ self.now.released }
    {
        self.released.as_slice()
    }

    /// Takes the last body of the queue back. It takes no memory.
    fn take_back(&mut self)
        requires { (before : List (List ℕ)) × (last : List ℕ) × (self.old.queue ≡ before ++ last ∷ []) }
        ensures { (before : List (List ℕ)) (last : List ℕ) → self.old.queue ≡ before ++ last ∷ [] → self.new ≡ record self.old { queue = before } }
    {
        self.queue.take_back();
    }

    /// Takes a body of the lane that opened, as `store` does, and queues a reply where it was stored.
    /// After `Memory` nothing has changed.
    pub fn hear(
        &mut self,
        alloc: Global,
        lane: &Lane,
        number: u16,
        size: u16,
        arrival: Arrival,
        reply: Option<Bytes>,
        guard: &mut ReplayGuard,
    ) -> Result<Heard, Memory>
        requires place { lane_index lane.now < length guard.old }
        requires some_size { 1 ≤ size }
        requires size_limit { size ≤ self.old.room }
        requires start { self.old.window.start < 2 ^ 32 - 4096 }
        requires short { IfSome reply IsShort }
        requires countable { IfSome reply (λ _. length self.old.queue < 2 ^ 32 - 1) }
        ensures heard { IfOk result (λ h. h ≡ heard_of (last_of guard.old lane.now) (arrived self.old.window number size arrival)) }
        ensures fits { IfOk result (HeardFits (length self.old.window.slots + 1)) }
        ensures after { OnOk result (self.new ≡ lane_heard (last_of guard.old lane.now) reply (arrived self.old.window number size arrival) self.old) }
        ensures pairs { OnOk result (guard.new ≡ pairs_after lane.now (arrived self.old.window number size arrival) guard.old) }
        ensures unchanged { OnErr result (self.new ≡ self.old) }
        ensures same_pairs { OnErr result (guard.new ≡ guard.old) }
    {
        let Some(body) = reply else {
            return self.store(alloc, lane, number, size, arrival, guard);
        };
        // The reply is queued first: what was stored can't be undone.
        self.queue(body)?;
        match self.store(alloc, lane, number, size, arrival, guard) {
            Ok(Heard::Stored(up)) => Ok(Heard::Stored(up)),
            other => {
                self.take_back();
                other
            }
        }
    }

    /// Takes a body of the lane that opened, while its window has this size, and releases what goes up
    /// and is above the lane's last pair. After `Memory` nothing has changed.
    fn store(
        &mut self,
        alloc: Global,
        lane: &Lane,
        number: u16,
        size: u16,
        arrival: Arrival,
        guard: &mut ReplayGuard,
    ) -> Result<Heard, Memory>
        requires place { lane_index lane.now < length guard.old }
        requires some_size { 1 ≤ size }
        requires size_limit { size ≤ self.old.room }
        requires start { self.old.window.start < 2 ^ 32 - 4096 }
        ensures heard { IfOk result (λ h. h ≡ heard_of (last_of guard.old lane.now) (arrived self.old.window number size arrival)) }
        ensures fits { IfOk result (HeardFits (length self.old.window.slots + 1)) }
        ensures after { OnOk result (self.new ≡ lane_after (last_of guard.old lane.now) (arrived self.old.window number size arrival) self.old) }
        ensures pairs { OnOk result (guard.new ≡ pairs_after lane.now (arrived self.old.window number size arrival) guard.old) }
        ensures unchanged { OnErr result (self.new ≡ self.old) }
        ensures same_pairs { OnErr result (guard.new ≡ guard.old) }
    {
        let most = self.reorder.due_on_arrival(number, size);
        let mut up = Vec::with_capacity(alloc, usize::from(most))?;
        self.released.reserve(usize::from(most))?;
        self.ups.reserve(most)?;
        match self.reorder.arrive(number, size, arrival, &mut self.ups) {
            Ok(()) => (),
            Err(ArriveRefusal::OldNumber(_)) => return Ok(Heard::Old),
            Err(ArriveRefusal::Double(_)) => return Ok(Heard::Doubled),
        }
        release(&mut self.ups, guard, lane, &mut self.released, &mut up);
        Ok(Heard::Stored(Positions::from_vec(up)))
    }

    /// Moves the window to these 12 bits, and releases what goes up and is above the lane's last pair. None
    /// exactly where it doesn't move; then nothing changes. After `Memory` nothing has changed.
    pub fn request(
        &mut self,
        alloc: Global,
        lane: &Lane,
        start: u16,
        guard: &mut ReplayGuard,
    ) -> Result<Option<Positions>, Memory>
        requires place { lane_index lane.now < length guard.old }
        requires low { self.old.window.start < 2 ^ 32 - 4096 }
        ensures up { IfOk result (λ up. up ≡ up_of (last_of guard.old lane.now) (requested self.old.window start)) }
        ensures fits { IfOk result (λ up. IfSome up (λ ps. length ps ≤ length self.old.window.slots)) }
        ensures after { OnOk result (self.new ≡ lane_passed (last_of guard.old lane.now) (requested self.old.window start) self.old) }
        ensures pairs { OnOk result (guard.new ≡ pairs_passed lane.now (requested self.old.window start) guard.old) }
        ensures unchanged { OnErr result (self.new ≡ self.old) }
        ensures same_pairs { OnErr result (guard.new ≡ guard.old) }
    {
        let most = self.reorder.due_on_request(start);
        let mut up = Vec::with_capacity(alloc, usize::from(most))?;
        self.released.reserve(usize::from(most))?;
        self.ups.reserve(most)?;
        if !self.reorder.request(start, &mut self.ups) {
            return Ok(None);
        }
        release(&mut self.ups, guard, lane, &mut self.released, &mut up);
        Ok(Some(Positions::from_vec(up)))
    }
}
