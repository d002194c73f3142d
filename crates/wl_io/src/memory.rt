//! Sources and sinks in memory, whose calls fail where they are told to.

ghost use Rattle.std.specs.Prelude.{◌≡◌, ◌==◌, ◌≤◌, ◌<◌, ◌^◌, ◌↔◌, ◌++◌, ◌∷◌, [], Some, Ok, length, take, drop, min, Contains, IsTrue, IsErr, IfOk, OnOk, OnErr, MatchResult, slice_get, option_copied};
ghost use Rattle.wl_io.specs.Counts.{risen};
ghost use Rattle.wl_io.specs.Faults.{Rose};
ghost use Rattle.wl_io.specs.InMemory.{unused, after_read, after_write, after_failed};
ghost use Rattle.wl_io.specs.Sink.{Takes};
ghost use Rattle.wl_io.specs.Source.{Hands, IsEnd};

use crate::traits::{Failed, Sink, Source};
use std::alloc::Global;
use std::marker::Model;
use wl_elem::{Bytes, Memory};

/// A list of call numbers, counted from 0.
#[derive(Debug, Drop)]
pub struct Calls {
    numbers: Vec<u64>,
}

impl Model for Calls {
    ghost use Rattle.std.specs.Prelude.{List, ℕ};

    ghost Value = { List ℕ };

    ghost view = { λ c. c.numbers.items };
}

impl Calls {
    /// No calls. It takes no memory.
    pub fn new(alloc: Global) -> Calls
        ensures { result ≡ [] }
    {
        Calls {
            numbers: Vec::new(alloc),
        }
    }

    /// Adds a call's number at the end. After `Memory` the list is as it was.
    pub fn push(&mut self, number: u64) -> Result<(), Memory>
        ensures ok { OnOk result (self.new ≡ self.old ++ number ∷ []) }
        ensures err { OnErr result (self.new ≡ self.old) }
    {
        self.numbers.push(number)?;
        Ok(())
    }

    /// How many numbers there are.
    pub fn len(&self) -> u32
        requires { length self.now < 2 ^ 32 }
        ensures { result ≡ length self.now }
    {
        self.numbers.len() as u32
    }

    /// Whether there are none.
    pub fn is_empty(&self) -> bool
        ensures { result ≡ (length self.now == 0) }
    {
        self.numbers.is_empty()
    }

    /// The number at an index. None exactly from the length up.
    pub fn get(&self, i: u32) -> Option<&u64>
        ensures { option_copied result ≡ slice_get self.now i }
    {
        self.numbers.get(i as usize)
    }

    /// Whether this number stands in the list.
    pub fn contains(&self, number: u64) -> bool
        ensures { IsTrue result ↔ Contains self.now number }
    {
        self.numbers.contains(&number)
    }
}

/// Which calls fail, how much each other call moves at most, and the counts so far.
#[derive(Debug, Drop)]
struct Plan {
    failing: Calls,
    most: u32,
    calls: u64,
    faults: u64,
}

impl Plan {
    /// Before any call.
    fn new(failing: Calls, most: u32) -> Plan
        ensures failing { result.failing ≡ failing }
        ensures most { result.most ≡ most }
        ensures counts { (result.calls ≡ 0) × (result.faults ≡ 0) }
    {
        Plan {
            failing,
            most,
            calls: 0,
            faults: 0,
        }
    }

    /// Counts a call, and a fault exactly where the call fails.
    fn begin(&mut self) -> Result<(), Failed>
        ensures ok { OnOk result (self.new ≡ record self.old { calls = risen self.old.calls }) }
        ensures err { OnErr result (self.new ≡ record self.old { calls = risen self.old.calls; faults = risen self.old.faults }) }
        ensures rose { OnErr result (Rose self.old.faults self.new.faults) }
        ensures fails { IsErr result ↔ Contains self.old.failing self.old.calls }
    {
        let fails = self.failing.contains(self.calls);
        self.calls = self.calls.saturating_add(1);
        if fails {
            return Err(self.fault());
        }
        Ok(())
    }

    /// Counts a fault.
    fn fault(&mut self) -> Failed
        ensures after { self.new ≡ record self.old { faults = risen self.old.faults } }
        ensures rose { Rose self.old.faults self.new.faults }
    {
        self.faults = self.faults.saturating_add(1);
        Failed
    }
}

/// A source that hands over bytes in memory, at most so many a call.
///
/// The calls whose numbers, counted from 0, stand in a list fail, and no others. The counts of
/// calls and of faults stay at 2^64 - 1.
#[derive(Debug, Drop)]
pub struct MemSource {
    all: Bytes,
    read: usize,
    plan: Plan,
}

impl Model for MemSource {
    ghost use Rattle.std.specs.Prelude.{◌≤◌, length, drop};
    ghost use Rattle.wl_io.specs.InMemory.{InMemory};

    ghost Value = { InMemory };

    ghost view = { λ s. record { bytes = drop s.read s.all; failing = s.plan.failing; most = s.plan.most; calls = s.plan.calls; faults = s.plan.faults } };

    ghost invariant = { λ s. (s.read ≤ length s.all) × (1 ≤ s.plan.most) };
}

impl MemSource {
    /// A source of these bytes. It takes no memory.
    pub fn new(bytes: Bytes, failing: Calls, most: u32) -> MemSource
        requires { 1 ≤ most }
        ensures { result ≡ unused bytes failing most }
    {
        MemSource {
            all: bytes,
            read: 0,
            plan: Plan::new(failing, most),
        }
    }
}

impl Source for MemSource {
    ghost left = { λ s. Some s.bytes };

    ghost faults = { λ s. s.faults };

    /// Hands over as many bytes as are left and fit, but not more than `most`. The rest of `buf`
    /// stays as it was.
    fn read(&mut self, buf: &mut [u8]) -> Result<usize, Failed>
        ensures count { self.old.faults ≤ self.new.faults }
        ensures bound { IfOk result (λ n. n ≤ length buf.new) }
        ensures handed { IfOk result (λ n. Hands (Some self.old.bytes) (Some self.new.bytes) (take n buf.new)) }
        ensures end { result ≡ Ok 0 → 0 < length buf.new → IsEnd (Some self.old.bytes) }
        ensures unharmed { OnOk result (self.new.faults ≡ self.old.faults) }
        ensures failed { OnErr result (Rose self.old.faults self.new.faults) }
        ensures kept { OnErr result (Some self.new.bytes ≡ Some self.old.bytes) }

        // Beyond the trait: which calls fail, how much the others move, and what changes.
        ensures fails { IsErr result ↔ Contains self.old.failing self.old.calls }
        ensures amount { IfOk result (λ n. n ≡ min (min (length self.old.bytes) (length buf.old)) self.old.most) }
        ensures copied { IfOk result (λ n. buf.new ≡ take n self.old.bytes ++ drop n buf.old) }
        ensures untouched { OnErr result (buf.new ≡ buf.old) }
        ensures after { MatchResult result (λ n. self.new ≡ after_read self.old n) (λ _. self.new ≡ after_failed self.old) }
    {
        self.plan.begin()?;
        let left = &self.all.as_slice()[self.read..];
        let n = left.len().min(buf.len()).min(self.plan.most as usize);
        buf[..n].copy_from_slice(&left[..n]);
        self.read += n;
        Ok(n)
    }
}

/// A sink that keeps bytes in memory, at most so many a call.
///
/// The calls whose numbers, counted from 0, stand in a list fail, and so does one that finds no
/// memory. The counts of calls and of faults stay at 2^64 - 1.
#[derive(Debug, Drop)]
pub struct MemSink {
    taken: Bytes,
    plan: Plan,
}

impl Model for MemSink {
    ghost use Rattle.std.specs.Prelude.{◌≤◌};
    ghost use Rattle.wl_io.specs.InMemory.{InMemory};

    ghost Value = { InMemory };

    ghost view = { λ s. record { bytes = s.taken; failing = s.plan.failing; most = s.plan.most; calls = s.plan.calls; faults = s.plan.faults } };

    ghost invariant = { λ s. 1 ≤ s.plan.most };
}

impl MemSink {
    /// A sink that took nothing yet. It takes no memory.
    pub fn new(alloc: Global, failing: Calls, most: u32) -> MemSink
        requires { 1 ≤ most }
        ensures { result ≡ unused [] failing most }
    {
        MemSink {
            taken: Bytes::new(alloc),
            plan: Plan::new(failing, most),
        }
    }

    /// The bytes taken so far, in order.
    pub fn taken(&self) -> &[u8]
        ensures { result.now ≡ self.now.bytes }
    {
        self.taken.as_slice()
    }
}

impl Sink for MemSink {
    ghost taken = { λ s. Some s.bytes };

    ghost faults = { λ s. s.faults };

    /// Takes as many bytes as there are, but not more than `most`.
    fn write(&mut self, piece: &[u8]) -> Result<usize, Failed>
        ensures count { self.old.faults ≤ self.new.faults }
        ensures bound { IfOk result (λ n. n ≤ length piece.now) }
        ensures progress { IfOk result (λ n. 0 < length piece.now → 0 < n) }
        ensures took { IfOk result (λ n. Takes (Some self.old.bytes) (Some self.new.bytes) (take n piece.now)) }
        ensures unharmed { OnOk result (self.new.faults ≡ self.old.faults) }
        ensures failed { OnErr result (Rose self.old.faults self.new.faults) }
        ensures kept { OnErr result (Some self.new.bytes ≡ Some self.old.bytes) }

        // Beyond the trait: which calls fail, memory apart, how much the others move, and what changes.
        ensures fails { Contains self.old.failing self.old.calls → IsErr result }
        ensures amount { IfOk result (λ n. n ≡ min (length piece.now) self.old.most) }
        ensures after { MatchResult result (λ n. self.new ≡ after_write self.old (take n piece.now)) (λ _. self.new ≡ after_failed self.old) }
    {
        self.plan.begin()?;
        let n = piece.len().min(self.plan.most as usize);
        if self.taken.extend(&piece[..n]).is_err() {
            return Err(self.plan.fault());
        }
        Ok(n)
    }
}
