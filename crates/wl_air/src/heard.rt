//! What an end hears of its peer.

ghost use Rattle.std.specs.Prelude.{◌≡◌, ◌-◌, ◌^◌, ◌<◌, option_copied, option_map, IfOk, IfErr, OnOk, OnErr};
ghost use Rattle.wl_elem.specs.Lanes.{lane_index};
ghost use Rattle.wl_history.specs.Ends.{receive_size};
ghost use Rattle.wl_history.specs.EndState.{lane_at, frames_on, hear_answer, after_hear, after_heard, after_request};
ghost use Rattle.wl_history.specs.declared.opened.Opened.{Opened};
ghost use Rattle.wl_history.specs.Legal.{HeardIf, ForgedIf};
ghost use Rattle.wl_history.specs.Answers.{bar_answer};
ghost use Rattle.wl_history.specs.Machines.{IsBodyOn};
ghost use Rattle.wl_history.specs.Hearing.{with_number};
ghost use Rattle.wl_history.specs.Words.{nth_of};
ghost use Rattle.wl_end.specs.declared.peek.Peek.{Peek};
ghost use Rattle.wl_end.specs.Peeking.{IsPeek, PeekFits};
ghost use Rattle.wl_air.specs.Acting.{IsHearFault};
ghost use Rattle.wl_air.specs.Air.{AreJoined};
ghost use Rattle.wl_air.specs.Listening.{Seen, IsSeenFault};
ghost use Rattle.wl_air.specs.World.{IsRoomy};

use crate::fault::StepFault;
use std::alloc::Global;
use wl_elem::{Bytes, Lane, LinkId, Memory};
use wl_end::{End, Peek};
use wl_frame::{Sealer, nonce_tells_lane, read_once, sealer_is_sealing};
use wl_history::{Arrival, Bar, Opened, Outcome, PositionsRoom, what_opens_fits};
use wl_number::{Numbers, booked_once};

/// The frame of this number that an end put on a link, from 0, or the latest there.
pub(crate) fn aired(end: &End, link: LinkId, nth: Option<u32>) -> Option<&[u8]>
    ensures { option_copied result ≡ nth_of nth (frames_on end.now link) }
{
    match nth {
        Some(n) => end.aired(link, n),
        None => end.latest(link),
    }
}

/// A frame with another sequence number, where it is there.
pub(crate) fn altered(
    alloc: Global,
    octets: Option<&[u8]>,
    number: u16,
) -> Result<Option<Bytes>, Memory>
    requires { number < 4096 }
    ensures { IfOk result (λ o. o ≡ option_map (with_number number) (option_copied octets.entry)) }
{
    let Some(octets) = octets else {
        return Ok(None);
    };
    let mut copy = Vec::new(alloc);
    copy.extend_from_slice(octets)?;
    if copy.len() > 22 {
        copy[22] = copy[22] % 16 + (number % 16) as u8 * 16;
    }
    if copy.len() > 23 {
        copy[23] = (number / 16) as u8;
    }
    Ok(Some(Bytes::from_vec(copy)))
}

/// The octets, where there are some.
pub(crate) fn slice_of(octets: &Option<Bytes>) -> Option<&[u8]>
    ensures { option_copied result ≡ octets.now }
{
    match octets {
        Some(octets) => Some(octets.as_slice()),
        None => None,
    }
}

/// Lets an end take a body that opened. The answer comes twice: for the caller and for the journal.
fn take(
    alloc: Global,
    own: &mut End,
    lane: &Lane,
    number: u16,
    numbers: &Numbers,
    body: Bytes,
) -> Result<(Outcome, Outcome), Memory>
    requires roomy { IsRoomy own.old }
    requires made { IsBodyOn lane.now body }
    ensures answer { IfOk result (λ o. o.0 ≡ hear_answer lane.now number (receive_size own.old.setup (lane_index lane.now)) (record { numbers = numbers.now; body = body }) own.old) }
    ensures again { IfOk result (λ o. o.1 ≡ o.0) }
    ensures after { OnOk result (own.new ≡ after_hear lane.now number (receive_size own.old.setup (lane_index lane.now)) (record { numbers = numbers.now; body = body }) own.old) }
    ensures unchanged { OnErr result (own.new ≡ own.old) }
{
    let room = PositionsRoom::new(alloc, own.held(*lane) + 1)?;
    let arrival = Arrival {
        numbers: Numbers {
            pos: numbers.pos,
            key: numbers.key,
            pn: numbers.pn,
        },
        body,
    };
    let outcome = own.hear(*lane, number, arrival)?;
    let again = outcome.again_in(room);
    // The journal keeps the one without spare room.
    Ok((again, outcome))
}

/// Lets an end take a request of its peer, where it is there. The answer comes twice: for the caller and
/// for the journal.
pub(crate) fn take_request(
    alloc: Global,
    own: &mut End,
    bar: Option<&Bar>,
) -> Result<(Outcome, Outcome), Memory>
    requires roomy { IsRoomy own.old }
    ensures answer { IfOk result (λ o. o.0 ≡ bar_answer (option_copied bar.entry) own.old) }
    ensures again { IfOk result (λ o. o.1 ≡ o.0) }
    ensures after { OnOk result (own.new ≡ after_request (option_copied bar.entry) own.old) }
    ensures unchanged { OnErr result (own.new ≡ own.old) }
{
    let Some(bar) = bar else {
        return Ok((Outcome::NotThere, Outcome::NotThere));
    };
    let room = PositionsRoom::new(alloc, own.held(bar.lane))?;
    let outcome = own.bar_in(bar)?;
    let again = outcome.again_in(room);
    Ok((again, outcome))
}

/// Lets an end take what it saw of octets of its peer.
fn take_seen(
    alloc: Global,
    own: &mut End,
    peer: &End,
    peek: Peek,
) -> Result<(Outcome, Outcome), StepFault>
    requires fits { PeekFits peek }
    requires roomy { IsRoomy own.old }
    ensures heard { IfOk result (λ o. Seen own.old peer.now peek o.0 own.new) }
    ensures again { IfOk result (λ o. o.1 ≡ o.0) }
    ensures fault { IfErr result (IsSeenFault peer.now peek) }
    ensures unchanged { OnErr result (own.new ≡ own.old) }
{
    match peek {
        Peek::Answered(outcome) => {
            let again = outcome.again();
            Ok((outcome, again))
        }
        Peek::Opened {
            four,
            lane,
            number,
            pn,
        } => {
            let Some(pos) = peer.booking_of(lane, pn, &four) else {
                return Err(StepFault::Forged(four));
            };
            let numbers = Numbers {
                pos,
                key: four.key.number,
                pn,
            };
            let Opened { body, .. } = four;
            match take(alloc, own, &lane, number, &numbers, body) {
                Ok(both) => Ok(both),
                Err(_) => Err(StepFault::Memory),
            }
        }
    }
}

/// Lets an end hear octets of its peer that came over a link, where there are some.
pub(crate) fn hear_if<Z: Sealer>(
    alloc: Global,
    own: &mut End,
    peer: &End,
    link: LinkId,
    octets: Option<&[u8]>,
    z: &Z,
) -> Result<(Outcome, Outcome), StepFault>
    requires roomy { IsRoomy own.old }
    ensures answer { IfOk result (λ o. AreJoined own.old peer.now → HeardIf (Z.text z.now) own.old peer.now link (option_copied octets.entry) o.0) }
    ensures unforged { IfOk result (λ o. AreJoined own.old peer.now → (opened : Opened) → ForgedIf (Z.text z.now) own.old peer.now link (option_copied octets.entry) opened → ⊥) }
    ensures after { IfOk result (λ o. own.new ≡ after_heard peer.now o.0 own.old) }
    ensures again { IfOk result (λ o. o.1 ≡ o.0) }
    ensures fault { IfErr result (λ f. AreJoined own.old peer.now → IsHearFault (Z.text z.now) own.old peer.now link (option_copied octets.entry) f) }
    ensures unchanged { OnErr result (own.new ≡ own.old) }
{
    sealer_is_sealing(z);
    read_once();
    nonce_tells_lane();
    booked_once();
    what_opens_fits();
    peer.test();
    let Some(octets) = octets else {
        return Ok((Outcome::NotThere, Outcome::NotThere));
    };
    let peek = match own.peek(link, octets, z) {
        Ok(peek) => peek,
        Err(_) => return Err(StepFault::Memory),
    };
    take_seen(alloc, own, peer, peek)
}
