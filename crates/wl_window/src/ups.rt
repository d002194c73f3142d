//! What goes up from a window.

ghost use Rattle.std.specs.Prelude.{◌≡◌, ◌==◌, ◌+◌, ◌-◌, ◌<◌, ◌≤◌, ◌∷◌, [], min, max, length, drop, slice_get, OnOk, OnErr};
ghost use Rattle.wl_window.specs.Queue.{received};

use std::alloc::Global;
use std::collections::VecDeque;
use std::marker::Model;
use wl_elem::Memory;

/// A queue of the items that went up from a window and wait to be taken, in order.
#[derive(Debug, Drop)]
pub struct Ups<T> {
    items: VecDeque<T>,
}

impl<T> Model for Ups<T> {
    ghost use Rattle.std.specs.Prelude.{◌-◌};
    ghost use Rattle.std.specs.VecDeque.{deque_len, deque_capacity};
    ghost use Rattle.wl_window.specs.Queue.{Queue};

    ghost Value = { Queue T };

    ghost view = { λ u. record { items = u.items.items; spare = deque_capacity u.items - deque_len u.items } };
}

impl<T> Ups<T> {
    /// Nothing waits. It takes no memory.
    pub fn new(alloc: Global) -> Ups<T>
        ensures { result.items ≡ [] }
    {
        Ups {
            items: VecDeque::new(alloc),
        }
    }

    /// Makes room for `n` more items, and for no more than `n` where there was less. After `Memory`
    /// nothing has changed.
    pub fn reserve(&mut self, n: u16) -> Result<(), Memory>
        ensures items { self.new.items ≡ self.old.items }
        ensures kept { self.old.spare ≤ self.new.spare }
        ensures ok { OnOk result (n ≤ self.new.spare) }
        ensures exact { OnOk result (self.new.spare ≡ max self.old.spare n) }
        ensures err { OnErr result (self.new ≡ self.old) }
    {
        self.items.reserve_exact(usize::from(n))?;
        Ok(())
    }

    /// How many more items fit without more memory: 65,535 where it is more.
    pub fn spare(&self) -> u16
        ensures { result ≡ min self.now.spare 65535 }
    {
        (self.items.capacity() - self.items.len()).min(65_535) as u16
    }

    /// How many items wait: 65,535 where it is more.
    pub fn len(&self) -> u16
        ensures { result ≡ min (length self.now.items) 65535 }
    {
        self.items.len().min(65_535) as u16
    }

    /// Whether nothing waits.
    pub fn is_empty(&self) -> bool
        ensures { result ≡ (length self.now.items == 0) }
    {
        self.items.is_empty()
    }

    /// Takes the first item. None exactly where nothing waits.
    pub fn take_first(&mut self) -> Option<T>
        ensures first { result ≡ slice_get self.old.items 0 }
        ensures items { self.new.items ≡ drop 1 self.old.items }
        ensures spare { self.new.spare + length self.new.items ≡ self.old.spare + length self.old.items }
    {
        self.items.pop_front()
    }

    /// Puts an item at the end, where there is room. It takes no memory.
    pub(crate) fn push(&mut self, item: T)
        requires { 0 < self.old.spare }
        ensures { self.new ≡ received self.old (item ∷ []) }
    {
        self.items.push_back_reserved(item);
    }
}
