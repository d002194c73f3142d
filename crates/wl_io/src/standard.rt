//! Sources and sinks over the readers and writers of std.

ghost use Rattle.std.specs.Prelude.{◌≡◌, ◌≤◌, ◌<◌, None, Ok, length, take, is_ok, IfOk, OnOk, OnErr, if◌then◌else◌};
ghost use Rattle.std.specs.Io.KnownBytes.{ReadConsumes, WriteAppends};
ghost use Rattle.wl_io.specs.Counts.{risen};
ghost use Rattle.wl_io.specs.Faults.{Rose};
ghost use Rattle.wl_io.specs.Sink.{Takes};
ghost use Rattle.wl_io.specs.Source.{Hands, IsEnd};

use crate::traits::{Failed, Sink, Source};
use std::io::{Read, Write};
use std::marker::Model;

/// A source over a reader of std. It doesn't tell its bytes.
///
/// Each failure that it answers counts one fault, and no other answer counts any. It is to fail exactly where
/// the reader answers an error, an interrupted call too; no contract of a reader says when that is.
#[derive(Drop)]
pub struct StdSource<R> {
    reader: R,
    faults: u64,
}

impl<R> Model for StdSource<R> {
    ghost use Rattle.wl_io.specs.Counted.{Counted};

    ghost Value = { Counted R };

    ghost view = { λ s. record { inner = s.reader; faults = s.faults } };
}

impl<R: Read> StdSource<R> {
    /// A source over this reader, with no faults so far.
    pub fn new(reader: R) -> StdSource<R>
        ensures { result ≡ record { inner = reader; faults = 0 } }
    {
        StdSource { reader, faults: 0 }
    }
}

impl<R: Read> Source for StdSource<R> {
    ghost left = { λ _. None };

    ghost faults = { λ s. s.faults };

    /// Reads once. `Failed` counts one fault, and Ok none.
    fn read(&mut self, buf: &mut [u8]) -> Result<usize, Failed>
        ensures count { self.old.faults ≤ self.new.faults }
        ensures bound { IfOk result (λ n. n ≤ length buf.new) }
        ensures handed { IfOk result (λ n. Hands None None (take n buf.new)) }
        ensures end { result ≡ Ok 0 → 0 < length buf.new → IsEnd None }
        ensures unharmed { OnOk result (self.new.faults ≡ self.old.faults) }
        ensures failed { OnErr result (Rose self.old.faults self.new.faults) }
        ensures kept { OnErr result (⟦<StdSource<R> as Source>⟧.left self.new ≡ ⟦<StdSource<R> as Source>⟧.left self.old) }

        // Beyond the trait: exactly one fault a failure, and what std says of the bytes.
        ensures counted { self.new.faults ≡ (if is_ok result then self.old.faults else risen self.old.faults) }
        ensures bytes { ReadConsumes (R.remaining self.old.inner) (R.remaining self.new.inner) result buf.new }
    {
        match self.reader.read(buf) {
            Ok(n) => Ok(n),
            Err(_) => {
                self.faults = self.faults.saturating_add(1);
                Err(Failed)
            }
        }
    }
}

/// A sink over a writer of std. It doesn't tell its bytes.
///
/// Each failure that it answers counts one fault, and no other answer counts any. A write that takes nothing of
/// a piece that isn't empty is a failure; an error of the writer is to be one, an interrupted call too, but no
/// contract of a writer says when that is. It never flushes: hand in `&mut writer` to flush it later.
#[derive(Drop)]
pub struct StdSink<W> {
    writer: W,
    faults: u64,
}

impl<W> Model for StdSink<W> {
    ghost use Rattle.wl_io.specs.Counted.{Counted};

    ghost Value = { Counted W };

    ghost view = { λ s. record { inner = s.writer; faults = s.faults } };
}

impl<W: Write> StdSink<W> {
    /// A sink over this writer, with no faults so far.
    pub fn new(writer: W) -> StdSink<W>
        ensures { result ≡ record { inner = writer; faults = 0 } }
    {
        StdSink { writer, faults: 0 }
    }
}

impl<W: Write> Sink for StdSink<W> {
    ghost taken = { λ _. None };

    ghost faults = { λ s. s.faults };

    /// Writes once. `Failed` counts one fault, and Ok none. Ok took something, unless the piece is empty.
    fn write(&mut self, piece: &[u8]) -> Result<usize, Failed>
        ensures count { self.old.faults ≤ self.new.faults }
        ensures bound { IfOk result (λ n. n ≤ length piece.now) }
        ensures progress { IfOk result (λ n. 0 < length piece.now → 0 < n) }
        ensures took { IfOk result (λ n. Takes None None (take n piece.now)) }
        ensures unharmed { OnOk result (self.new.faults ≡ self.old.faults) }
        ensures failed { OnErr result (Rose self.old.faults self.new.faults) }
        ensures kept { OnErr result (⟦<StdSink<W> as Sink>⟧.taken self.new ≡ ⟦<StdSink<W> as Sink>⟧.taken self.old) }

        // Beyond the trait: exactly one fault a failure, and what std says of the bytes.
        ensures counted { self.new.faults ≡ (if is_ok result then self.old.faults else risen self.old.faults) }
        ensures bytes { WriteAppends (W.contents self.old.inner) (W.contents self.new.inner) result piece.now }
    {
        match self.writer.write(piece) {
            Ok(n) if n > 0 || piece.is_empty() => Ok(n),
            _ => {
                self.faults = self.faults.saturating_add(1);
                Err(Failed)
            }
        }
    }
}
