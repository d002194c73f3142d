//! Writing all of some bytes to a sink.

ghost use Rattle.std.specs.Prelude.{◌≤◌, OnOk, IfErr};
ghost use Rattle.wl_io.specs.Seen.{seen};
ghost use Rattle.wl_io.specs.Writing.{IsWriteFault, IsWritten};

use crate::traits::Sink;

/// A write failed after the sink took this many bytes.
#[derive(Clone, Copy, Debug, PartialEq, Eq)]
pub struct WriteFault {
    /// How many of the bytes the sink took.
    pub taken: u64,
}

/// Hands all bytes to the sink, in order. It takes no memory.
///
/// `WriteFault` comes only where the sink's count of faults rose; the sink then took the first
/// `taken` bytes. Ok leaves that count as it was. It makes at most one call a byte.
pub fn write_all<K: Sink>(sink: &mut K, bytes: &[u8]) -> Result<(), WriteFault>
    ensures count { K.faults sink.old ≤ K.faults sink.new }
    ensures ok { OnOk result (IsWritten (seen K.taken K.faults sink.old sink.new) bytes.now) }
    ensures fault { IfErr result (λ f. IsWriteFault (seen K.taken K.faults sink.old sink.new) bytes.now f.taken) }
{
    let mut taken = 0;
    'writes: while taken < bytes.len() {
        match sink.write(&bytes[taken..]) {
            Ok(n) => taken += n,
            Err(_) => {
                return Err(WriteFault {
                    taken: taken as u64,
                });
            }
        }
    }
    Ok(())
}
