//! Calls on sources and sinks over readers and writers; those in memory are shown by `run_cases`.

ghost use Rattle.std.specs.Prelude.{◌≤◌, IfOk};

use crate::octets::{any_octets_of, octets_text};
use crate::words::{number_of, text};
use std::alloc::Global;
use std::io::{self, Read, Write};
use wl_elem::Bytes;
use wl_io::{ReadFault, Sink, Source, StdSink, StdSource, WriteFault, read_all, write_all};

/// The answer of a call. None where there is none of this name, or a word can't be read.
pub fn answer(alloc: Global, name: &str, words: &[&str]) -> Option<String> {
    match name {
        "read_reader" => read_reader(alloc, words),
        "read_breaking" => read_breaking(alloc, words),
        "write_writer" => write_writer(alloc, words),
        "write_breaking" => write_breaking(alloc, words),
        "write_room" => write_room(alloc, words),
        "write_piece" => write_piece(alloc, words),
        _ => None,
    }
}

/// What was read, or why it wasn't.
fn read_text(alloc: Global, read: Result<Bytes, ReadFault>) -> Option<String> {
    match read {
        Ok(bytes) => octets_text(alloc, bytes.as_slice()),
        Err(ReadFault::Failed) => text(alloc, "failed"),
        Err(ReadFault::TooLong(count)) => format!(in alloc; "too_long={count}").ok(),
        Err(ReadFault::Memory) => None,
    }
}

/// Whether all was written, or what was taken before a call failed.
fn write_text(alloc: Global, written: Result<(), WriteFault>) -> Option<String> {
    match written {
        Ok(()) => text(alloc, "all"),
        Err(WriteFault { taken }) => format!(in alloc; "taken={taken}").ok(),
    }
}

/// Hands over three bytes and then fails, or takes three and then fails.
#[derive(Drop)]
struct Breaking {
    broken: bool,
}

impl Breaking {
    /// How many bytes a call moves.
    fn step(&mut self, room: usize) -> io::Result<usize>
        ensures { IfOk result (λ n. n ≤ room) }
    {
        if self.broken {
            return Err(io::Error::from(io::ErrorKind::Interrupted));
        }
        self.broken = true;
        Ok(room.min(3))
    }
}

impl Read for Breaking {
    fn read(&mut self, buf: &mut [u8]) -> io::Result<usize> {
        self.step(buf.len())
    }
}

impl Write for Breaking {
    fn write(&mut self, buf: &[u8]) -> io::Result<usize> {
        self.step(buf.len())
    }

    fn flush(&mut self) -> io::Result<()> {
        Ok(())
    }
}

/// `read_reader OCTETS`: what is read of a reader of these octets.
fn read_reader(alloc: Global, words: &[&str]) -> Option<String> {
    let [octets] = words else {
        return None;
    };
    let octets = any_octets_of(alloc, octets)?;
    read_text(
        alloc,
        read_all(alloc, &mut StdSource::new(octets.as_slice())),
    )
}

/// `read_breaking SIZE`: what a source over a reader that breaks off after three bytes answers to two
/// reads into SIZE bytes, and what is read of one to its end.
fn read_breaking(alloc: Global, words: &[&str]) -> Option<String> {
    let [size] = words else {
        return None;
    };
    let size = usize::from(number_of::<u16>(size)?);
    let mut buf = vec![in alloc; 0u8; size].ok()?;
    let mut source = StdSource::new(Breaking { broken: false });
    let first = source.read(buf.as_mut_slice()).ok()?;
    let second = if source.read(buf.as_mut_slice()).is_err() {
        "failed"
    } else {
        "read"
    };
    let mut source = StdSource::new(Breaking { broken: false });
    let all = read_text(alloc, read_all(alloc, &mut source))?;
    format!(in alloc; "{first} {second} {all}").ok()
}

/// `write_writer OCTETS`: whether all octets are written to a writer that keeps them, and these.
fn write_writer(alloc: Global, words: &[&str]) -> Option<String> {
    let [octets] = words else {
        return None;
    };
    let octets = any_octets_of(alloc, octets)?;
    let mut written: Vec<u8> = Vec::new(alloc);
    let answer = write_all(&mut StdSink::new(&mut written), octets.as_slice());
    let answer = write_text(alloc, answer)?;
    format!(in alloc; "{answer} {}", octets_text(alloc, written.as_slice())?).ok()
}

/// `write_breaking OCTETS`: whether all octets are written to a writer that breaks off after three.
fn write_breaking(alloc: Global, words: &[&str]) -> Option<String> {
    let [octets] = words else {
        return None;
    };
    let octets = any_octets_of(alloc, octets)?;
    let mut sink = StdSink::new(Breaking { broken: false });
    write_text(alloc, write_all(&mut sink, octets.as_slice()))
}

/// `write_room ROOM OCTETS`: whether all octets are written to a writer with room for so many.
fn write_room(alloc: Global, words: &[&str]) -> Option<String> {
    let [room, octets] = words else {
        return None;
    };
    let octets = any_octets_of(alloc, octets)?;
    let mut room = vec![in alloc; 0u8; usize::from(number_of::<u16>(room)?)].ok()?;
    let written = write_all(&mut StdSink::new(room.as_mut_slice()), octets.as_slice());
    write_text(alloc, written)
}

/// `write_piece ROOM OCTETS`: how many octets one write to a writer with room for so many takes, or
/// `failed`.
fn write_piece(alloc: Global, words: &[&str]) -> Option<String> {
    let [room, octets] = words else {
        return None;
    };
    let octets = any_octets_of(alloc, octets)?;
    let mut room = vec![in alloc; 0u8; usize::from(number_of::<u16>(room)?)].ok()?;
    match StdSink::new(room.as_mut_slice()).write(octets.as_slice()) {
        Ok(n) => format!(in alloc; "{n}").ok(),
        Err(_) => text(alloc, "failed"),
    }
}
