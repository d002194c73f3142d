//! Reading a source to its end.

ghost use Rattle.std.specs.Prelude.{◌≡◌, ◌≤◌, ◌<◌, [], length, IfOk, IfErr, OnOk};
ghost use Rattle.wl_io.specs.Reading.{AreAll, IsReadFault, read_limit};
ghost use Rattle.wl_io.specs.Seen.{seen};
ghost use Rattle.wl_io.specs.Source.{HandsSome};
ghost use Rattle.wl_io.specs.declared.read.ReadFault.TheVariants.{Failed, Memory};

use crate::traits::{self, Source};
use std::alloc::{AllocError, Global};
use wl_elem::{Bytes, Memory};

/// The most bytes that one read asks for: 64 KiB.
const CHUNK: usize = 65_536;

/// At most so many bytes are read: 16 MiB.
pub const READ_LIMIT: usize = 16_777_216;

/// Why a source wasn't read to its end.
#[derive(Clone, Copy, Debug, PartialEq, Eq)]
pub enum ReadFault {
    /// A read failed.
    Failed,
    /// More than [`READ_LIMIT`] bytes came; the count is of those that were read.
    TooLong(u64),
    /// There was no memory for the bytes.
    Memory,
}

impl From<traits::Failed> for ReadFault {
    ghost from_gives = { λ _ e. e ≡ Failed };

    fn from(_e: traits::Failed) -> ReadFault {
        ReadFault::Failed
    }
}

impl From<Memory> for ReadFault {
    ghost from_gives = { λ _ e. e ≡ Memory };

    fn from(_e: Memory) -> ReadFault {
        ReadFault::Memory
    }
}

impl From<AllocError> for ReadFault {
    ghost from_gives = { λ _ e. e ≡ Memory };

    fn from(_e: AllocError) -> ReadFault {
        ReadFault::Memory
    }
}

/// All bytes of the source, in order.
///
/// It stops at the first byte above the limit, so the count of `TooLong` is the limit and one.
/// `Failed` comes only where the source's count of faults rose, and every other answer, Ok too, leaves
/// that count as it was. Whatever is answered, what is left in the source is the rest behind what was
/// read.
pub fn read_all<S: Source>(alloc: Global, source: &mut S) -> Result<Bytes, ReadFault>
    ensures count { S.faults source.old ≤ S.faults source.new }
    ensures rest { HandsSome (S.left source.old) (S.left source.new) }
    ensures bound { IfOk result (λ bytes. length bytes ≤ read_limit) }
    ensures all { IfOk result (λ bytes. AreAll (S.left source.old) (S.left source.new) bytes) }
    ensures unharmed { OnOk result (S.faults source.new ≡ S.faults source.old) }
    ensures fault { IfErr result (λ e. IsReadFault (seen S.left S.faults source.old source.new) e) }
{
    let mut chunk = vec![in alloc; 0; CHUNK]?;
    let mut bytes = Bytes::new(alloc);
    read_rest(source, chunk.as_mut_slice(), &mut bytes)?;
    Ok(bytes)
}

/// Adds all bytes of the source to `bytes`, with `chunk` as the buffer of the reads.
fn read_rest<S: Source>(
    source: &mut S,
    chunk: &mut [u8],
    bytes: &mut Bytes,
) -> Result<(), ReadFault>
    requires room { 0 < length chunk.old }
    requires none { bytes.old ≡ [] }
    ensures count { S.faults source.old ≤ S.faults source.new }
    ensures rest { HandsSome (S.left source.old) (S.left source.new) }
    ensures bound { OnOk result (length bytes.new ≤ read_limit) }
    ensures all { OnOk result (AreAll (S.left source.old) (S.left source.new) bytes.new) }
    ensures unharmed { OnOk result (S.faults source.new ≡ S.faults source.old) }
    ensures fault { IfErr result (λ e. IsReadFault (seen S.left S.faults source.old source.new) e) }
{
    'reads: while bytes.len() as usize <= READ_LIMIT {
        let room = chunk.len().min(READ_LIMIT + 1 - bytes.len() as usize);
        let part = &mut chunk[..room];
        let n = source.read(part)?;
        if n == 0 {
            return Ok(());
        }
        bytes.extend(&part[..n])?;
    }
    Err(ReadFault::TooLong(u64::from(bytes.len())))
}
