//! What bodies are sealed under, and the frames that carry them.

ghost use Rattle.std.specs.Prelude.{◌≡◌, ◌↔◌, ◌+◌, ◌^◌, ◌<◌, ◌≤◌, ℕ, List, Some, length, IfOk, IsTrue, bytes_eq};
ghost use Rattle.wl_number.specs.NumberObject.{InRange};
ghost use Rattle.wl_frame.specs.Frame.{IsHeader, IsKind};
ghost use Rattle.wl_frame.specs.Sealing.{IsUnder};
ghost use Rattle.wl_history.specs.Ends.{link_at};
ghost use Rattle.wl_history.specs.Hearing.{kind_of, header_of, octets_of};
ghost use Rattle.wl_end.specs.Parts.{IsShort};
ghost use Rattle.wl_end.specs.Putting.{flown};

use crate::links::{address_on, mld_of};
use std::alloc::Global;
use wl_elem::{Bytes, EndId, Lane, LinkId, Memory};
use wl_frame::{
    Aad, Header, Key, Kind, Protection, Sealer, aad_of, are_octets, can_seal_under, encode_frame,
    nonce_of, sealer_is_sealing,
};
use wl_history::{EndStart, LinkStart, Opened};
use wl_number::Numbers;

/// What a body is sealed and opened under.
#[derive(Drop)]
pub(crate) struct Under {
    /// The key.
    pub key: Key,
    /// The nonce.
    pub nonce: [u8; 13],
    /// The additional authenticated data.
    pub aad: Aad,
}

/// Where a frame goes, and what it carries but for the body.
#[derive(Clone, Copy)]
pub(crate) struct Flight {
    /// The link.
    pub link: LinkId,
    /// The lane.
    pub lane: Lane,
    /// The numbers of the booking.
    pub numbers: Numbers,
    /// Whether it was sent before.
    pub retry: bool,
}

/// The kind of frame that carries a lane's bodies.
fn kind_of(sender: EndId, lane: &Lane) -> Kind
    ensures value { result ≡ kind_of sender lane.now }
    ensures sound { IsKind result }
{
    match lane {
        Lane::Tid(tid) => {
            tid.get();
            Kind::Qos {
                to_ap: matches!(sender, EndId::Sta),
                tid: *tid,
                rest: 0,
            }
        }
        Lane::Management => Kind::Action,
    }
}

/// A header with this kind and the addresses of the MLDs.
fn nominal(start: &EndStart, sender: EndId, lane: &Lane) -> Header
    ensures { result.kind ≡ kind_of sender lane.now }
{
    Header {
        kind: kind_of(sender, lane),
        retry: false,
        power: false,
        more: false,
        duration: 0,
        a1: mld_of(start, sender.peer()),
        a2: mld_of(start, sender),
        a3: mld_of(start, EndId::Ap),
        number: 0,
    }
}

/// Whether two strings of octets are the same.
pub(crate) fn is_same(a: &[u8], b: &[u8]) -> bool
    ensures value { result ≡ bytes_eq a.now b.now }
    ensures same { IsTrue result ↔ (a.now ≡ b.now) }
{
    a == b
}

impl Under {
    ghost use Rattle.wl_end.specs.Putting.{under, four_of};

    /// What bodies of a sender's lane are sealed under, under this key and packet number: the addresses
    /// are those of the MLDs, so that a retry over another link is the same.
    pub fn new(start: &EndStart, sender: EndId, lane: &Lane, key: u16, pn: u64) -> Under
        requires { pn < 2 ^ 48 }
        ensures key { result.key ≡ (under start.now sender lane.now key pn).key }
        ensures nonce { result.nonce ≡ (under start.now sender lane.now key pn).nonce }
        ensures aad { result.aad ≡ (under start.now sender lane.now key pn).aad }
        ensures sound { IsUnder result.key result.nonce result.aad }
    {
        let header = nominal(start, sender, lane);
        let receiver_mld = mld_of(start, sender.peer());
        let sender_mld = mld_of(start, sender);
        let aad = aad_of(&header, receiver_mld, sender_mld, mld_of(start, EndId::Ap));
        let nonce = nonce_of(&header, mld_of(start, sender), pn);
        let base = start.key;
        let key = Key { base, number: key };
        can_seal_under(&key, &nonce, &aad);
        Under { key, nonce, aad }
    }

    /// Whether this and a body are what was opened.
    pub fn sealed(&self, body: &[u8], four: &Opened) -> bool
        ensures { IsTrue result ↔ (four_of self.now body.now ≡ four.now) }
    {
        if self.key.number != four.key.number || !is_same(&self.key.base, &four.key.base) {
            return false;
        }
        if !is_same(&self.nonce, &four.nonce) {
            return false;
        }
        if !is_same(self.aad.as_slice(), four.aad.as_slice()) {
            return false;
        }
        is_same(body, four.body.as_slice())
    }
}

/// The header of a frame over a link.
fn header_on(start: &EndStart, on: &LinkStart, flight: &Flight) -> Header
    requires { link_at flight.now.link start.now.links ≡ Some on.now }
    ensures value { (body : List ℕ) → result ≡ header_of start.now start.now.end (flown flight.now body) }
    ensures sound { IsHeader result }
{
    let a3 = match &flight.lane {
        Lane::Tid(_) => mld_of(start, EndId::Ap),
        Lane::Management => address_on(on, EndId::Ap),
    };
    Header {
        kind: kind_of(start.end, &flight.lane),
        retry: flight.retry,
        power: false,
        more: false,
        duration: 0,
        a1: address_on(on, start.end.peer()),
        a2: address_on(on, start.end),
        a3,
        number: (flight.numbers.pos % 4096) as u16,
    }
}

/// The octets of a frame over a link, with this body sealed.
pub(crate) fn frame_octets<Z: Sealer>(
    alloc: Global,
    start: &EndStart,
    on: &LinkStart,
    flight: &Flight,
    body: &[u8],
    z: &Z,
) -> Result<Bytes, Memory>
    requires on { link_at flight.now.link start.now.links ≡ Some on.now }
    requires short { IsShort body.now }
    requires range { InRange flight.now.numbers }
    ensures { IfOk result (λ o. o ≡ octets_of (Z.text z.now) start.now start.now.end (flown flight.now body.now)) }
{
    sealer_is_sealing(z);
    are_octets(body);
    let n = &flight.numbers;
    let under = Under::new(start, start.end, &flight.lane, n.key, n.pn);
    let text = z.seal(alloc, &under.key, &under.nonce, &under.aad, body)?;
    let header = header_on(start, on, flight);
    let protection = Protection {
        key_id: (n.key % 2) as u8,
        pn: n.pn,
        spare: 0,
        bits: 0,
    };
    encode_frame(alloc, &header, Some(&protection), text.as_slice())
}
