//! Calls on frames, their AAD and nonces, and on the sealer that stands in for a cipher.

ghost use Rattle.std.specs.Prelude.{◌<◌, ◌^◌, IsTrue, IfSome};
ghost use Rattle.wl_frame.specs.Frame.{is_protected};

use crate::octets::{octets_of, octets_text};
use crate::words::{address_of, number_of, refusal_text, text};
use std::alloc::Global;
use wl_elem::{Bytes, MacAddr};
use wl_frame::{
    Aad, Frame, Header, Key, Sealer, StandIn, aad_of, decode_frame, encode_frame, nonce_of,
};

/// The answer of a call. None where there is none of this name, or a word can't be read.
pub fn answer(alloc: Global, name: &str, words: &[&str]) -> Option<String> {
    match name {
        "frame" => frame(alloc, words),
        "aad" => aad(alloc, words),
        "nonce" => nonce(alloc, words),
        "seal" => sealed(alloc, words),
        "unseal" => unsealed(alloc, words),
        _ => None,
    }
}

/// The octets that a frame is written in, where it is well formed.
fn written(alloc: Global, frame: &Frame<'_>) -> Option<String> {
    match frame.well_formed() {
        Ok(true) => {
            let protection = frame.protection.as_ref();
            let octets = encode_frame(alloc, &frame.header, protection, frame.payload).ok()?;
            octets_text(alloc, octets.as_slice())
        }
        _ => text(alloc, "not_well_formed"),
    }
}

/// `frame OCTETS`: the octets that the frame is written in again, or the refusal.
fn frame(alloc: Global, words: &[&str]) -> Option<String> {
    let [octets] = words else {
        return None;
    };
    let octets = octets_of(alloc, octets)?;
    match decode_frame(octets.as_slice()) {
        Ok(frame) => written(alloc, &frame),
        Err(refusal) => refusal_text(alloc, refusal),
    }
}

/// What a frame is sealed with: its header, which is that of a protected frame, and its packet number.
#[derive(Clone, Copy)]
struct Sealable {
    header: Header,
    pn: u64,
}

/// The header and the packet number of a protected frame.
fn sealable_of(alloc: Global, word: &str) -> Option<Sealable>
    ensures protected { IfSome result (λ s. IsTrue (is_protected s.header.kind)) }
    ensures pn_fits { IfSome result (λ s. s.pn < 2 ^ 48) }
{
    let octets = octets_of(alloc, word)?;
    let frame = match decode_frame(octets.as_slice()) {
        Ok(frame) => frame,
        Err(_) => return None,
    };
    let header = frame.header;
    let pn = frame.protection?.pn;
    if !header.kind.is_protected() || pn >= 1 << 48 {
        return None;
    }
    Some(Sealable { header, pn })
}

/// `aad FRAME RECEIVER SENDER BSS`: how many octets the AAD of a frame between these MLDs has, and
/// these; `none` where such frames aren't protected.
fn aad(alloc: Global, words: &[&str]) -> Option<String> {
    let [frame, receiver, sender, bss] = words else {
        return None;
    };
    let Some(frame) = sealable_of(alloc, frame) else {
        return text(alloc, "none");
    };
    let receiver = address_of(alloc, receiver)?;
    let sender = address_of(alloc, sender)?;
    let bss = address_of(alloc, bss)?;
    let aad = aad_of(&frame.header, receiver, sender, bss);
    let octets = octets_text(alloc, aad.as_slice())?;
    format!(in alloc; "{} {octets}", aad.len()).ok()
}

/// `nonce FRAME SENDER`: the nonce of a frame of this MLD; `none` where such frames aren't protected.
fn nonce(alloc: Global, words: &[&str]) -> Option<String> {
    let [frame, sender] = words else {
        return None;
    };
    let Some(frame) = sealable_of(alloc, frame) else {
        return text(alloc, "none");
    };
    let sender = address_of(alloc, sender)?;
    octets_text(alloc, &nonce_of(&frame.header, sender, frame.pn))
}

/// What seals a frame from the AP MLD 02:00:00:00:00:01 to the station MLD 02:00:00:00:00:02.
#[derive(Clone, Copy)]
struct Lock {
    key: Key,
    nonce: [u8; 13],
    aad: Aad,
}

/// The lock of a key number, of base 00 01 .. 0f, and a frame.
fn lock_of(alloc: Global, number: &str, frame: &str) -> Option<Lock> {
    let key = Key {
        base: [0, 1, 2, 3, 4, 5, 6, 7, 8, 9, 10, 11, 12, 13, 14, 15],
        number: number_of::<u16>(number)?,
    };
    let frame = sealable_of(alloc, frame)?;
    let ap = MacAddr::new([2, 0, 0, 0, 0, 1]);
    let sta = MacAddr::new([2, 0, 0, 0, 0, 2]);
    let nonce = nonce_of(&frame.header, ap, frame.pn);
    let aad = aad_of(&frame.header, sta, ap, ap);
    Some(Lock { key, nonce, aad })
}

/// The text of a body, as any sealer makes it.
fn sealed_by<Z: Sealer>(z: &Z, alloc: Global, lock: &Lock, body: &[u8]) -> Option<Bytes> {
    z.seal(alloc, &lock.key, &lock.nonce, &lock.aad, body).ok()
}

/// The body of a text, as any sealer finds it.
fn unsealed_by<Z: Sealer>(z: &Z, alloc: Global, lock: &Lock, text: &[u8]) -> Option<Option<Bytes>> {
    z.unseal(alloc, &lock.key, &lock.nonce, &lock.aad, text)
        .ok()
}

/// `seal KEY_NUMBER FRAME BODY`: the sealed text of the body.
fn sealed(alloc: Global, words: &[&str]) -> Option<String> {
    let [number, frame, body] = words else {
        return None;
    };
    let lock = lock_of(alloc, number, frame)?;
    let body = octets_of(alloc, body)?;
    let sealed = sealed_by(&StandIn, alloc, &lock, body.as_slice())?;
    octets_text(alloc, sealed.as_slice())
}

/// `unseal KEY_NUMBER FRAME TEXT`: the body whose text this is, or `closed`.
fn unsealed(alloc: Global, words: &[&str]) -> Option<String> {
    let [number, frame, sealed] = words else {
        return None;
    };
    let lock = lock_of(alloc, number, frame)?;
    let sealed = octets_of(alloc, sealed)?;
    match unsealed_by(&StandIn, alloc, &lock, sealed.as_slice())? {
        Some(body) => octets_text(alloc, body.as_slice()),
        None => text(alloc, "closed"),
    }
}
