//! What is seen of octets that are heard, before anything is kept of them.

ghost use Rattle.std.specs.Prelude.{◌≡◌, ◌↔◌, ◌^◌, ◌<◌, IsTrue, length, IfOk, IfErr, IfSome, bytes_eq};
ghost use Rattle.wl_elem.specs.Lanes.{IsLane};
ghost use Rattle.wl_frame.specs.Frame.{IsHeader, IsProtection};
ghost use Rattle.wl_frame.specs.Reading.{value};
ghost use Rattle.wl_history.specs.Ends.{link_address};
ghost use Rattle.wl_end.specs.Peeking.{verdict, closed_of, OpenedAs, PeekedAs, PeekFits};
ghost use Rattle.wl_history.specs.Plain.{IsPlain};
ghost use Rattle.wl_history.specs.Hearing.{is_down, is_own_way, judged_frame, judged_kind, judged_protected};

use crate::flight::{Under, is_same};
use crate::links::{address_on, is_powered, link_at};
use std::alloc::Global;
use wl_elem::{EndId, Lane, LinkId, MacAddr, Memory, Why};
use wl_frame::{Frame, Header, Kind, Sealer, are_octets};
use wl_history::{EndStart, Opened, Outcome, Setup};
use wl_replay::KeyRing;

/// What an end sees of octets that came over a link.
#[derive(Debug, Drop)]
pub enum Peek {
    /// Nothing is opened, for this reason.
    Answered(Outcome),
    /// A payload was opened.
    Opened {
        /// What it was opened under, and the body.
        four: Opened,
        /// The lane.
        lane: Lane,
        /// The frame's sequence number, below 4,096.
        number: u16,
        /// The packet number.
        pn: u64,
    },
}

/// What is known of a payload before it is opened.
#[derive(Clone, Copy)]
pub(crate) struct Payload {
    /// The lane.
    pub lane: Lane,
    /// The frame's sequence number.
    pub number: u16,
    /// The number of the key.
    pub key: u16,
    /// The packet number.
    pub pn: u64,
}

/// Whether an address is that of an end on a link.
fn is_address(start: &EndStart, link: LinkId, end: EndId, address: &MacAddr) -> bool
    ensures { result ≡ bytes_eq address.now (link_address start.now link end) }
{
    let octets = address.octets();
    match link_at(start.links.as_slice(), link) {
        Some(on) => is_same(&octets, &address_on(&on, end).octets()),
        None => false,
    }
}

/// Whether data goes the way that the receiver itself sends.
fn is_own_way(receiver: EndId, kind: &Kind) -> bool
    ensures { result ≡ is_own_way receiver kind.now }
{
    match (receiver, kind) {
        (EndId::Ap, Kind::Qos { to_ap, .. }) => !*to_ap,
        (EndId::Sta, Kind::Qos { to_ap, .. }) => *to_ap,
        _ => false,
    }
}

/// Whether the radio is off on the link, or the frame is protected and the link isn't set up.
fn is_down(setup: &Setup, link: LinkId, kind: &Kind) -> bool
    ensures { result ≡ is_down setup.now link kind.now }
{
    !is_powered(setup, link) || (kind.is_protected() && !setup.links.has(link))
}

/// The answer to a wrong address, at its place.
fn wrong_address(place: u32) -> Outcome
    ensures { result ≡ Outcome.BadFrame Why.WrongAddress place }
{
    Outcome::BadFrame {
        why: Why::WrongAddress,
        place,
    }
}

/// The payload of a frame on a lane, where a key of its key ID is held.
fn keyed(keys: &KeyRing, lane: Lane, frame: &Frame<'_>) -> Result<Payload, Outcome>
    requires { IfSome frame.now.protection IsProtection }
    ensures judged { verdict result frame.now.payload.now ≡ judged_protected keys.now lane (value frame.now) frame.now.protection }
    ensures bound { IfOk result (λ p. p.pn < 2 ^ 48) }
    ensures number { IfOk result (λ p. p.number ≡ frame.now.header.number) }
    ensures lane { IfOk result (λ p. p.lane ≡ lane) }
    ensures plain { IfErr result IsPlain }
{
    let Some(p) = &frame.protection else {
        return Err(Outcome::Ignored);
    };
    match keys.held(p.key_id) {
        Some(key) => Ok(Payload {
            lane,
            number: frame.header.number,
            key,
            pn: p.pn,
        }),
        None => Err(Outcome::NoKey),
    }
}

/// The payload of a protected frame that passed the tests of its header.
fn payload_of(keys: &KeyRing, frame: &Frame<'_>) -> Result<Payload, Outcome>
    requires header { IsHeader frame.now.header }
    requires protection { IfSome frame.now.protection IsProtection }
    ensures judged { verdict result frame.now.payload.now ≡ judged_kind keys.now (value frame.now) frame.now.header.kind }
    ensures bound { IfOk result (λ p. p.pn < 2 ^ 48) }
    ensures number { IfOk result (λ p. p.number ≡ frame.now.header.number) }
    ensures lane { IfOk result (λ p. IsLane p.lane) }
    ensures plain { IfErr result IsPlain }
{
    match &frame.header.kind {
        Kind::Qos { tid, .. } => keyed(keys, Lane::Tid(*tid), frame),
        Kind::Action => keyed(keys, Lane::Management, frame),
        Kind::AssocAsk | Kind::AssocReply => Err(Outcome::Ignored),
    }
}

/// The tests of a frame at its receiver, in order, and then its payload.
fn judge(
    start: &EndStart,
    setup: &Setup,
    link: LinkId,
    frame: &Frame<'_>,
) -> Result<Payload, Outcome>
    requires header { IsHeader frame.now.header }
    requires protection { IfSome frame.now.protection IsProtection }
    ensures judged { verdict result frame.now.payload.now ≡ judged_frame start.now setup.now start.now.end link (value frame.now) }
    ensures bound { IfOk result (λ p. p.pn < 2 ^ 48) }
    ensures number { IfOk result (λ p. p.number ≡ frame.now.header.number) }
    ensures lane { IfOk result (λ p. IsLane p.lane) }
    ensures plain { IfErr result IsPlain }
{
    let header = &frame.header;
    let receiver = start.end;
    if is_down(setup, link, &header.kind) {
        return Err(Outcome::LinkDown);
    }
    if !is_address(start, link, receiver, &header.a1) {
        return Err(wrong_address(4));
    }
    if !is_address(start, link, receiver.peer(), &header.a2) {
        return Err(wrong_address(10));
    }
    if is_own_way(receiver, &header.kind) {
        return Err(wrong_address(1));
    }
    payload_of(&setup.keys, frame)
}

/// Opens a payload.
fn open<Z: Sealer>(
    alloc: Global,
    start: &EndStart,
    payload: &Payload,
    octets: &[u8],
    z: &Z,
) -> Result<Peek, Memory>
    requires bound { payload.now.pn < 2 ^ 48 }
    requires short { payload.now.number < 4096 }
    requires lane { IsLane payload.now.lane }
    ensures opened { IfOk result (OpenedAs (Z.text z.now) start.now (closed_of payload.now octets.now)) }
    ensures fits { IfOk result PeekFits }
{
    let under = Under::new(
        start,
        start.end.peer(),
        &payload.lane,
        payload.key,
        payload.pn,
    );
    match z.unseal(alloc, &under.key, &under.nonce, &under.aad, octets)? {
        None => Ok(Peek::Answered(Outcome::NotOpened)),
        Some(body) => {
            are_octets(body.as_slice());
            let Under { key, nonce, aad } = under;
            let four = Opened {
                key,
                nonce,
                aad,
                body,
            };
            Ok(Peek::Opened {
                four,
                lane: payload.lane,
                number: payload.number,
                pn: payload.pn,
            })
        }
    }
}

/// What is seen of a frame that came over a link.
pub(crate) fn peek_frame<Z: Sealer>(
    alloc: Global,
    start: &EndStart,
    setup: &Setup,
    link: LinkId,
    frame: &Frame<'_>,
    z: &Z,
) -> Result<Peek, Memory>
    requires header { IsHeader frame.now.header }
    requires protection { IfSome frame.now.protection IsProtection }
    ensures peeked { IfOk result (PeekedAs (Z.text z.now) start.now (judged_frame start.now setup.now start.now.end link (value frame.now))) }
    ensures fits { IfOk result PeekFits }
{
    match judge(start, setup, link, frame) {
        Ok(payload) => open(alloc, start, &payload, frame.payload, z),
        Err(outcome) => Ok(Peek::Answered(outcome)),
    }
}
