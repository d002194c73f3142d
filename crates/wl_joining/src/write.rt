//! Writing the bodies.

ghost use Rattle.std.specs.Prelude.{◌≡◌, ◌<◌, ◌≤◌, ◌+◌, ◌++◌, ◌∷◌, [], length, if◌then◌else◌, IfOk, OnOk, IsTrue};
ghost use Rattle.wl_elem.specs.Links.{link_limit};
ghost use Rattle.wl_setup.specs.Table.{is_named};
ghost use Rattle.wl_joining.specs.Joining.{is_other, other_links, for_each, profile, station_info, status_for, ask_profile, reply_profile, ask_basic, reply_basic, basic_element, ask_body, reply_body};

use std::alloc::Global;
use wl_elem::{Bytes, EXTENDED, MULTI_LINK, MacAddr, Memory};
use wl_setup::{SetupAsk, SetupReply};

/// The AID that an AP gives: 1, with the two top bits set.
const AID: u16 = 0xc001;

/// Adds a complete profile of the link of this ID, with this address and this body.
fn put_profile(out: &mut Bytes, id: u8, mac: Option<MacAddr>, body: &[u8]) -> Result<(), Memory>
    requires known { id < link_limit }
    requires short { length body.now ≤ 4 }
    ensures added { OnOk result (out.new ≡ out.old ++ profile (station_info id mac ++ body.now)) }
    ensures bound { OnOk result (length out.new ≤ length out.old + 15) }
{
    let len = body.len() as u8;
    match mac {
        None => {
            out.extend(&[0, len + 3, id + 0x10, 0, 1])?;
            out.extend(body)
        }
        Some(mac) => {
            out.extend(&[0, len + 9, id + 0x30, 0, 7])?;
            out.extend(&mac.octets())?;
            out.extend(body)
        }
    }
}

/// Adds the profile of the link of this ID, where it is asked and isn't the one that carries the request.
fn put_asked(out: &mut Bytes, ask: &SetupAsk, id: u8) -> Result<(), Memory>
    requires { id < link_limit }
    ensures added { OnOk result (out.new ≡ out.old ++ (if is_other ask.now.macs ask.now.on id then ask_profile ask.now.macs id else [])) }
    ensures bound { OnOk result (length out.new ≤ length out.old + 15) }
{
    let Some(mac) = ask.macs[usize::from(id)] else {
        return Ok(());
    };
    if id == ask.on.get() {
        return Ok(());
    }
    put_profile(out, id, Some(mac), &[0, 0])
}

/// Adds the profiles of a request.
#[tactic(auto, using(crate::proofs::Writing::written_more, crate::proofs::Writing::written_all), unfolding(crate::specs::Joining::other_links))]
fn put_asks(out: &mut Bytes, ask: &SetupAsk) -> Result<(), Memory>
    ensures added { OnOk result (out.new ≡ out.old ++ for_each (ask_profile ask.now.macs) (other_links ask.now.macs ask.now.on)) }
    ensures bound { OnOk result (length out.new ≤ length out.old + 225) }
{
    'links: for id in 0..15_u8 {
        put_asked(out, ask, id)?;
    }
    Ok(())
}

/// Adds the profile of the link of this ID, where it has a status and isn't the one that carries the
/// response.
fn put_answered(
    out: &mut Bytes,
    macs: &[Option<MacAddr>; 15],
    reply: &SetupReply,
    id: u8,
) -> Result<(), Memory>
    requires { id < link_limit }
    ensures added { OnOk result (out.new ≡ out.old ++ (if is_other reply.now.status reply.now.on id then reply_profile macs.now reply.now.status id else [])) }
    ensures bound { OnOk result (length out.new ≤ length out.old + 15) }
{
    let Some(status) = reply.status[usize::from(id)] else {
        return Ok(());
    };
    if id == reply.on.get() {
        return Ok(());
    }
    let [low, high] = status.to_le_bytes();
    put_profile(out, id, macs[usize::from(id)], &[0, 0, low, high])
}

/// Adds the profiles of a response.
#[tactic(auto, using(crate::proofs::Writing::written_more, crate::proofs::Writing::written_all), unfolding(crate::specs::Joining::other_links))]
fn put_answers(
    out: &mut Bytes,
    macs: &[Option<MacAddr>; 15],
    reply: &SetupReply,
) -> Result<(), Memory>
    ensures added { OnOk result (out.new ≡ out.old ++ for_each (reply_profile macs.now reply.now.status) (other_links reply.now.status reply.now.on)) }
    ensures bound { OnOk result (length out.new ≤ length out.old + 225) }
{
    'links: for id in 0..15_u8 {
        put_answered(out, macs, reply, id)?;
    }
    Ok(())
}

/// The body of the Basic Multi-Link element of a request.
fn ask_basic(alloc: Global, ask: &SetupAsk) -> Result<Bytes, Memory>
    ensures octets { IfOk result (λ b. b ≡ ask_basic ask.now) }
    ensures short { IfOk result (λ b. length b ≤ 235) }
{
    let mut out = Bytes::new(alloc);
    out.extend(&[0, 0, 7])?;
    out.extend(&ask.mld.octets())?;
    put_asks(&mut out, ask)?;
    Ok(out)
}

/// The body of the Basic Multi-Link element of a response.
fn reply_basic(
    alloc: Global,
    mld: MacAddr,
    macs: &[Option<MacAddr>; 15],
    reply: &SetupReply,
) -> Result<Bytes, Memory>
    ensures octets { IfOk result (λ b. b ≡ reply_basic mld macs.now reply.now) }
    ensures short { IfOk result (λ b. length b ≤ 235) }
{
    let mut out = Bytes::new(alloc);
    out.extend(&[0x10, 0, 8])?;
    out.extend(&mld.octets())?;
    out.push(reply.on.get())?;
    put_answers(&mut out, macs, reply)?;
    Ok(out)
}

/// Adds a Multi-Link element with this body.
fn put_element(out: &mut Bytes, body: &[u8]) -> Result<(), Memory>
    requires { length body.now ≤ 254 }
    ensures { OnOk result (out.new ≡ out.old ++ basic_element body.now) }
{
    let len = body.len() as u8;
    out.extend(&[EXTENDED, len + 1, MULTI_LINK])?;
    out.extend(body)
}

/// The body of the Association Request frame that asks for links (IEEE Std 802.11be, 35.3.5), with the
/// octets of further elements, at most 1,024. `Memory` where there was none for the body.
pub fn write_ask(alloc: Global, ask: &SetupAsk, elements: &[u8]) -> Result<Bytes, Memory>
    requires { length elements.now ≤ 1024 }
    ensures { IfOk result (λ b. b ≡ ask_body ask.now elements.now) }
{
    let basic = ask_basic(alloc, ask)?;
    let mut out = Bytes::new(alloc);
    out.extend(&[0, 0, 0, 0])?;
    out.extend(elements)?;
    put_element(&mut out, basic.as_slice())?;
    Ok(out)
}

/// The status of the carrying link.
fn carrying(reply: &SetupReply) -> u16
    requires { IsTrue (is_named reply.now.status reply.now.on) }
    ensures { result ≡ status_for reply.now.status reply.now.on }
{
    match reply.status[usize::from(reply.on.get())] {
        Some(status) => status,
        None => unreachable!(),
    }
}

/// The body of the Association Response frame that replies (IEEE Std 802.11be, 35.3.5), by an AP with
/// this MLD address and, by link ID, these addresses. The reply has a status for the link that carries
/// it. `Memory` where there was none for the body.
pub fn write_reply(
    alloc: Global,
    mld: MacAddr,
    macs: &[Option<MacAddr>; 15],
    reply: &SetupReply,
) -> Result<Bytes, Memory>
    requires { IsTrue (is_named reply.now.status reply.now.on) }
    ensures { IfOk result (λ b. b ≡ reply_body mld macs.now reply.now) }
{
    let basic = reply_basic(alloc, mld, macs, reply)?;
    let mut out = Bytes::new(alloc);
    out.extend(&[0, 0])?;
    out.extend(&carrying(reply).to_le_bytes())?;
    out.extend(&AID.to_le_bytes())?;
    put_element(&mut out, basic.as_slice())?;
    Ok(out)
}
