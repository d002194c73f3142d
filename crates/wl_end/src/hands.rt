//! Hands of threads.

ghost use Rattle.std.specs.Prelude.{◌≡◌, ◌<◌, ◌≤◌, false, length, OnOk};
ghost use Rattle.wl_history.specs.Hands.{hand_of, set_hand};
ghost use Rattle.wl_history.specs.Answers.{is_empty};

use crate::entries::fill;
use std::alloc::Global;
use std::marker::Model;
use wl_elem::Memory;
use wl_history::Hand;

/// What each thread holds, by its number. A thread that never held anything has no entry.
#[derive(Debug, Drop)]
pub(crate) struct Hands {
    list: Vec<Hand>,
}

impl Model for Hands {
    ghost use Rattle.std.specs.Vec.{vec_capacity};
    ghost use Rattle.wl_end.specs.Parts.{Held};

    ghost Value = { Held };

    ghost view = { λ h. record { hands = h.list.items; room = vec_capacity h.list } };
}

impl Hands {
    ghost use Rattle.std.specs.Prelude.{[]};

    /// All are empty. It takes no memory.
    pub fn new(alloc: Global) -> Hands
        ensures { result.hands ≡ [] }
    {
        Hands {
            list: Vec::new(alloc),
        }
    }

    /// What a thread holds.
    pub fn get(&self, thread: u16) -> Hand
        ensures { result ≡ hand_of self.now.hands thread }
    {
        match self.list.get(usize::from(thread)) {
            Some(hand) => *hand,
            None => Hand::Empty,
        }
    }

    /// Makes room for what a thread may hold. The hands stay as they are.
    pub fn room_for(&mut self, thread: u16) -> Result<(), Memory>
        ensures hands { self.new.hands ≡ self.old.hands }
        ensures room { OnOk result (thread < self.new.room) }
    {
        let count = usize::from(thread) + 1;
        self.list.reserve(count.saturating_sub(self.list.len()))?;
        Ok(())
    }

    /// Gives a thread something to hold, where there is room for it. It takes no memory.
    pub fn set(&mut self, thread: u16, hand: Hand)
        requires { thread < self.old.room }
        ensures hands { self.new.hands ≡ set_hand thread hand self.old.hands }
    {
        let place = usize::from(thread);
        fill(&mut self.list, place, Hand::Empty);
        self.list[place] = hand;
    }

    /// Changes what a thread holds, which isn't nothing. It takes no memory.
    pub fn replace(&mut self, thread: u16, hand: Hand)
        requires { is_empty (hand_of self.old.hands thread) ≡ false }
        ensures hands { self.new.hands ≡ set_hand thread hand self.old.hands }
    {
        self.list[usize::from(thread)] = hand;
    }
}
