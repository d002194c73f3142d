//! The originator's window.

ghost use Rattle.std.specs.Prelude.{◌≡◌, ◌+◌, ◌-◌, ◌^◌, ◌<◌, ◌≤◌, ℕ, Bool, true, false, [], length, IsOk, OnOk, OnErr};

use crate::distance::distance_to;
use crate::mark::Mark;
use crate::marks::{
    book, finish_below, finish_named, is_booked, is_done, lacks, mark_at, reserve_marks, settle,
};
use crate::refusal::{MoveRefusal, OriginRefusal};
use std::alloc::Global;
use std::collections::VecDeque;
use std::marker::Model;
use wl_elem::Memory;

/// The originator of a block ack agreement (IEEE Std 802.11, 10.25.7).
///
/// ```text
///   all done │ base                                top │ not booked
///   ─────────┼─────────────────────────────────────────┼───────────
///            │  booked   done   not booked yet   booked │
/// ```
///
/// A position is let go first and booked later, in any order. It is done once it was acknowledged or
/// given up; the base is the least one that isn't. The window is full where as many were let go from
/// the base on as its size. Marks stand for the positions from the base to the top alone.
#[derive(Debug, Drop)]
pub struct Origin {
    /// How many positions were let go.
    granted: u32,
    /// The least position that isn't done.
    base: u32,
    /// The positions from the base on, up to the greatest booked one.
    marks: VecDeque<Mark>,
}

impl Model for Origin {
    ghost use Rattle.wl_window.specs.Originating.{Ledger};

    ghost Value = { Ledger };

    ghost use Rattle.std.specs.VecDeque.{deque_capacity};
    ghost use Rattle.wl_window.specs.Originating.{IsSending};

    ghost view = { λ o. record { room = deque_capacity o.marks; sending = record { granted = o.granted; base = o.base; marks = o.marks.items } } };

    ghost invariant = { λ o. IsSending (record { granted = o.granted; base = o.base; marks = o.marks.items }) };
}

impl Origin {
    ghost use Rattle.wl_window.specs.Originating.{IsSending, top, booked_count, is_done, is_booked, reserved, with_booked, acked, given_up, sending_after, granted_answer, base_answer, newly_answer, sending_acked};

    /// No position was let go. It takes no memory.
    pub fn new(alloc: Global) -> Origin
        ensures { result.sending ≡ record { granted = 0; base = 0; marks = [] } }
    {
        Origin {
            granted: 0,
            base: 0,
            marks: VecDeque::new(alloc),
        }
    }

    /// Lets a position go, where so many are queued and the window has this size.
    ///
    /// NothingQueued exactly where as many were let go, WindowFull exactly where they aren't, and those
    /// let go from the base on are `size` or more; both change nothing. It takes no memory.
    pub fn reserve(&mut self, queued: u32, size: u16) -> Result<(), OriginRefusal>
        requires { self.old.sending.granted ≤ queued }
        ensures answer { result ≡ granted_answer (reserved self.old.sending queued size) }
        ensures sending { self.new.sending ≡ sending_after self.old.sending (reserved self.old.sending queued size) }
        ensures room { self.new.room ≡ self.old.room }
    {
        if self.granted == queued {
            return Err(OriginRefusal::NothingQueued);
        }
        if self.granted - self.base >= u32::from(size) {
            return Err(OriginRefusal::WindowFull);
        }
        self.granted += 1;
        Ok(())
    }

    /// Takes a position back that was let go and isn't booked. It takes no memory.
    pub fn give_back(&mut self)
        requires { booked_count self.old.sending < self.old.sending.granted }
        ensures sending { self.new.sending ≡ record { granted = self.old.sending.granted - 1; base = self.old.sending.base; marks = self.old.sending.marks } }
        ensures room { self.new.room ≡ self.old.room }
    {
        self.granted -= 1;
    }

    /// Makes room for the mark of a position: `booked` doesn't answer `Memory` for it then, nor for a
    /// lower one. After `Memory` there is no less room than before.
    pub fn reserve_room(&mut self, pos: u32) -> Result<(), Memory>
        ensures sending { self.new.sending ≡ self.old.sending }
        ensures kept { self.old.room ≤ self.new.room }
        ensures ok { OnOk result (pos - self.old.sending.base < self.new.room) }
    {
        let index = pos.saturating_sub(self.base) as usize;
        reserve_marks(&mut self.marks, index)
    }

    /// Books a position that was let go. `Memory` where there was none for its mark; then the positions
    /// are as they were.
    pub fn booked(&mut self, pos: u32) -> Result<(), Memory>
        requires granted { booked_count self.old.sending < self.old.sending.granted }
        requires free { is_booked self.old.sending pos ≡ false }
        requires limit { pos < 2 ^ 32 - 1 }
        ensures ok { OnOk result (self.new.sending ≡ with_booked self.old.sending pos) }
        ensures err { OnErr result (self.new.sending ≡ self.old.sending) }
        ensures roomy { pos - self.old.sending.base < self.old.room → IsOk result }
        ensures kept { self.old.room ≤ self.new.room }
    {
        let index = (pos - self.base) as usize;
        reserve_marks(&mut self.marks, index)?;
        book(&mut self.marks, index);
        Ok(())
    }

    /// Takes an ack: the window start of the recipient and the numbers that it stored, each by its 12
    /// bits. How many positions are done now that weren't.
    ///
    /// None exactly where the ack is old: its start is past the top, counted from the base on; then
    /// nothing changes. It takes no memory.
    pub fn ack(&mut self, start: u16, stored: &[u16]) -> Option<u32>
        ensures answer { result ≡ newly_answer (acked self.old.sending start stored.now) }
        ensures sending { self.new.sending ≡ sending_acked self.old.sending (acked self.old.sending start stored.now) }
        ensures room { self.new.room ≡ self.old.room }
    {
        let ahead = usize::from(distance_to(self.base, start));
        if ahead > self.marks.len() {
            return None;
        }
        let below = finish_below(&mut self.marks, ahead);
        let named = finish_named(&mut self.marks, self.base, stored);
        self.base = settle(&mut self.marks, self.base);
        Some(below + named)
    }

    /// Gives the positions below `to` up, so that they are done. The new base.
    ///
    /// NotBooked exactly where one of them isn't booked, Behind exactly where all are and the base is
    /// at `to` or further; both change nothing. It takes no memory.
    pub fn advance(&mut self, to: u32) -> Result<u32, MoveRefusal>
        ensures answer { result ≡ base_answer (given_up self.old.sending to) }
        ensures sending { self.new.sending ≡ sending_after self.old.sending (given_up self.old.sending to) }
        ensures room { self.new.room ≡ self.old.room }
    {
        let count = to.saturating_sub(self.base) as usize;
        if count > self.marks.len() || lacks(&self.marks, count) {
            return Err(MoveRefusal::NotBooked);
        }
        if count == 0 {
            return Err(MoveRefusal::Behind);
        }
        finish_below(&mut self.marks, count);
        self.base = settle(&mut self.marks, self.base);
        Ok(self.base)
    }

    /// Whether a position is done.
    pub fn is_done(&self, pos: u32) -> bool
        ensures { result ≡ is_done self.now.sending pos }
    {
        pos < self.base || is_done(mark_at(&self.marks, (pos - self.base) as usize))
    }

    /// Whether a position is booked, and perhaps done.
    pub fn is_booked(&self, pos: u32) -> bool
        ensures { result ≡ is_booked self.now.sending pos }
    {
        pos < self.base || is_booked(mark_at(&self.marks, (pos - self.base) as usize))
    }

    /// The least position that isn't done.
    pub fn base(&self) -> u32
        ensures value { result ≡ self.now.sending.base }
        ensures sound { IsSending self.now.sending }
    {
        self.base
    }

    /// How many positions were let go.
    pub fn granted(&self) -> u32
        ensures value { result ≡ self.now.sending.granted }
        ensures sound { IsSending self.now.sending }
    {
        self.granted
    }

    /// One past the greatest booked position, or the base where that is greater.
    pub fn top(&self) -> u32
        ensures value { result ≡ top self.now.sending }
        ensures sound { IsSending self.now.sending }
    {
        self.base + self.marks.len() as u32
    }
}
