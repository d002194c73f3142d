//! Writing frames.

ghost use Rattle.std.specs.Prelude.{◌≡◌, ◌<◌, ◌++◌, ◌∷◌, [], IfSome, IfOk, OnOk, option_copied};
ghost use Rattle.wl_frame.specs.Frame.{FrameOf, IsWritable, IsHeader, IsKind, IsProtection, first_octet, direction_bits, flags, qos_control, ccmp_header, header_text, spelling, frame_value};

use crate::header::{Header, Kind, Protection};
use crate::octets::{ACTION, ASSOC_ASK, ASSOC_REPLY, QOS_DATA};
use std::alloc::Global;
use wl_elem::{Bytes, Memory, put_mac, put_u16};

/// The first octet of a frame of this kind.
fn first_octet(kind: &Kind) -> u8
    ensures { result ≡ first_octet kind.now }
{
    match kind {
        Kind::Qos { .. } => QOS_DATA,
        Kind::Action => ACTION,
        Kind::AssocAsk => ASSOC_ASK,
        Kind::AssocReply => ASSOC_REPLY,
    }
}

/// ToDS and FromDS.
pub fn direction_bits(kind: &Kind) -> u8
    ensures value { result ≡ direction_bits kind.now }
    ensures bound { result < 3 }
{
    match kind {
        Kind::Qos { to_ap: true, .. } => 0x01,
        Kind::Qos { to_ap: false, .. } => 0x02,
        Kind::Action | Kind::AssocAsk | Kind::AssocReply => 0,
    }
}

/// The second octet.
fn flags(header: &Header) -> u8
    ensures { result ≡ flags header.now }
{
    direction_bits(&header.kind)
        + 0x08 * u8::from(header.retry)
        + 0x10 * u8::from(header.power)
        + 0x20 * u8::from(header.more)
        + 0x40 * u8::from(header.kind.is_protected())
}

/// The QoS control, which data has.
fn put_qos(out: &mut Bytes, kind: &Kind) -> Result<(), Memory>
    requires { IsKind kind.now }
    ensures { OnOk result (out.new ≡ out.old ++ qos_control kind.now) }
{
    match kind {
        Kind::Qos { tid, rest, .. } => put_u16(out, Some(u16::from(tid.get()) + *rest)),
        Kind::Action | Kind::AssocAsk | Kind::AssocReply => Ok(()),
    }
}

/// The CCMP header, where there is one.
fn put_ccmp(out: &mut Bytes, protection: Option<&Protection>) -> Result<(), Memory>
    requires { IfSome (option_copied protection) IsProtection }
    ensures { OnOk result (out.new ≡ out.old ++ ccmp_header (option_copied protection.entry)) }
{
    match protection {
        Some(p) => {
            let [pn0, pn1, pn2, pn3, pn4, pn5, _, _] = p.pn.to_le_bytes();
            let key = p.bits + 0x20 + 0x40 * p.key_id;
            out.extend(&[pn0, pn1, p.spare, key, pn2, pn3, pn4, pn5])
        }
        None => Ok(()),
    }
}

/// The fields up to the sequence control.
fn put_header(out: &mut Bytes, header: &Header) -> Result<(), Memory>
    requires { IsHeader header.now }
    ensures { OnOk result (out.new ≡ out.old ++ header_text header.now) }
{
    out.push(first_octet(&header.kind))?;
    out.push(flags(header))?;
    put_u16(out, Some(header.duration))?;
    put_mac(out, Some(header.a1))?;
    put_mac(out, Some(header.a2))?;
    put_mac(out, Some(header.a3))?;
    put_u16(out, Some(16 * header.number))
}

/// The one spelling of this frame, which is well formed: `Frame::well_formed` says true of it. A
/// protection is there exactly for data and Action. `Memory` where there was none for the octets.
pub fn encode_frame(
    alloc: Global,
    header: &Header,
    protection: Option<&Protection>,
    payload: &[u8],
) -> Result<Bytes, Memory>
    requires { IsWritable (frame_value header.now (option_copied protection) payload.now) }
    ensures { IfOk result (λ b. FrameOf (frame_value header.now (option_copied protection.entry) payload.now) b) }
{
    let mut out = Bytes::new(alloc);
    put_header(&mut out, header)?;
    put_qos(&mut out, &header.kind)?;
    put_ccmp(&mut out, protection)?;
    out.extend(payload)?;
    Ok(out)
}
