//! Reading frames.

ghost use Rattle.std.specs.Prelude.{◌≡◌, ◌≤◌, ℕ, Result, IfOk, length};
ghost use Rattle.wl_elem.specs.declared.fault.Refusal.{Refusal};
ghost use Rattle.wl_frame.specs.Frame.{FrameValue};
ghost use Rattle.wl_frame.specs.Refusals.{ReadAs};
ghost use Rattle.wl_frame.specs.Reading.{answer, reading};

use crate::fields::frame_at;
use crate::header::Frame;
use crate::refusal::test_frame;
use wl_elem::Refusal;

/// The frame of octets that pass all tests.
fn read_frame(octets: &[u8]) -> Result<Frame<'_>, Refusal>
    ensures made { answer result ≡ reading octets.now }
    ensures within { IfOk result (λ f. length f.payload.now ≤ length octets.now) }
{
    match test_frame(octets) {
        Ok(()) => Ok(frame_at(octets)),
        Err(refusal) => Err(refusal),
    }
}

/// Reads a frame. It takes no memory; the payload is a part of the input.
///
/// Ok exactly where the octets are those of a frame; each frame has one spelling. Otherwise the
/// refusal is that of the first of these that holds, with its place:
///
/// - Short at 0: fewer than 24 octets.
/// - Version at 0: the version isn't 0. TypeLeftOut at 0: another type or subtype.
/// - FourAddress at 1: data with both ToDS and FromDS. NoDs at 1: data with neither.
///   DsInManagement at 1: management with either.
/// - Fragmented at 1: more fragments.
/// - NotProtected at 1: data or Action that isn't protected. ProtectedSetup at 1: an association
///   frame that is.
/// - Order at 1.
/// - Fragmented at 22: a fragment number other than 0.
/// - Short at 24: data without its QoS control. TidLeftOut at 24: a TID from 8 up. Amsdu at 24.
/// - Short at the header's end: fewer than 8 octets for the CCMP header of data or Action.
/// - NoExtIv at its key octet, 3 behind the header's end.
pub fn decode_frame<'a>(octets: &'a [u8]) -> Result<Frame<'a>, Refusal>
    ensures read { ReadAs octets.now (answer result) }
    ensures only { (reading : Result FrameValue Refusal) → ReadAs octets.now reading → answer result ≡ reading }
    ensures within { IfOk result (λ f. length f.payload.now ≤ length octets.now) }
{
    read_frame(octets)
}
