//! The interfaces of sources and sinks.

ghost use Rattle.std.specs.Prelude.{◌≡◌, ◌≤◌, ◌<◌, ℕ, List, Option, Ok, length, take, IfOk, OnOk, OnErr};
ghost use Rattle.wl_io.specs.Faults.{Rose};
ghost use Rattle.wl_io.specs.Source.{Hands, IsEnd};
ghost use Rattle.wl_io.specs.Sink.{Takes};

/// A read or a write failed. It moved no byte.
#[derive(Clone, Copy, Debug, PartialEq, Eq)]
pub struct Failed;

/// Where bytes come from, a few a call.
///
/// `left` are the bytes still to come, where the source tells them; `faults` counts its faults.
pub trait Source {
    ghost left: { Self → Option (List ℕ) };

    ghost faults: { Self → ℕ };

    /// Puts the next bytes at the start of `buf` and answers how many. 0 on a buffer that isn't
    /// empty is the end. `Failed` hands over nothing. The count of faults rises exactly where it comes;
    /// at the last value of its type it stays, and `Failed` may come all the same.
    fn read(&mut self, buf: &mut [u8]) -> Result<usize, Failed>
        ensures count { faults self.old ≤ faults self.new }
        ensures bound { IfOk result (λ n. n ≤ length buf.new) }
        ensures handed { IfOk result (λ n. Hands (left self.old) (left self.new) (take n buf.new)) }
        ensures end { result ≡ Ok 0 → 0 < length buf.new → IsEnd (left self.old) }
        ensures unharmed { OnOk result (faults self.new ≡ faults self.old) }
        ensures failed { OnErr result (Rose (faults self.old) (faults self.new)) }
        ensures kept { OnErr result (left self.new ≡ left self.old) };
}

/// Where bytes go, a few a call.
///
/// `taken` are the bytes that it took so far, where the sink tells them; `faults` counts its faults.
pub trait Sink {
    ghost taken: { Self → Option (List ℕ) };

    ghost faults: { Self → ℕ };

    /// Takes the first bytes of `piece` and answers how many: at least one where the piece isn't
    /// empty. `Failed` takes nothing. The count of faults rises exactly where it comes; at the last
    /// value of its type it stays, and `Failed` may come all the same.
    fn write(&mut self, piece: &[u8]) -> Result<usize, Failed>
        ensures count { faults self.old ≤ faults self.new }
        ensures bound { IfOk result (λ n. n ≤ length piece.now) }
        ensures progress { IfOk result (λ n. 0 < length piece.now → 0 < n) }
        ensures took { IfOk result (λ n. Takes (taken self.old) (taken self.new) (take n piece.now)) }
        ensures unharmed { OnOk result (faults self.new ≡ faults self.old) }
        ensures failed { OnErr result (Rose (faults self.old) (faults self.new)) }
        ensures kept { OnErr result (taken self.new ≡ taken self.old) };
}
