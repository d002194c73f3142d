//! The fields of a frame.

ghost use Rattle.std.specs.Prelude.{◌≡◌, ◌+◌, ◌≤◌, true, length};
ghost use Rattle.wl_frame.specs.Refusals.{header_end};
ghost use Rattle.wl_frame.specs.Reading.{IsWhole, kind_at, header_at, ccmp_at, protection_at, payload_start, frame_at, value};

use crate::header::{Frame, Header, Kind, Protection};
use crate::octets::{ACTION, ASSOC_ASK, QOS_DATA, has_ccmp, header_end};
use wl_elem::{Tid, has_bit, mac_at, u16_at};

/// The kind, with the fields of data.
fn kind_at(octets: &[u8]) -> Kind
    requires { IsWhole octets.now }
    ensures { result ≡ kind_at octets.now }
{
    match octets[0] {
        QOS_DATA => {
            let to_ap = has_bit(u16::from(octets[1]), 0x01);
            let rest = u16_at(octets, 24) / 16 * 16;
            match Tid::new(octets[24] % 16) {
                Some(tid) => Kind::Qos { to_ap, tid, rest },
                None => unreachable!(),
            }
        }
        ACTION => Kind::Action,
        ASSOC_ASK => Kind::AssocAsk,
        _ => Kind::AssocReply,
    }
}

/// The header.
fn header_at(octets: &[u8]) -> Header
    requires { IsWhole octets.now }
    ensures { result ≡ header_at octets.now }
{
    let flags = u16::from(octets[1]);
    Header {
        kind: kind_at(octets),
        retry: has_bit(flags, 0x08),
        power: has_bit(flags, 0x10),
        more: has_bit(flags, 0x20),
        duration: u16_at(octets, 2),
        a1: mac_at(octets, 4),
        a2: mac_at(octets, 10),
        a3: mac_at(octets, 16),
        number: u16_at(octets, 22) / 16,
    }
}

/// The CCMP header at this place.
fn ccmp_at(octets: &[u8], place: usize) -> Protection
    requires { place + 8 ≤ length octets.now }
    ensures { result ≡ ccmp_at octets.now place }
{
    let key = octets[place + 3];
    let low = u64::from(u16_at(octets, place));
    let middle = u64::from(u16_at(octets, place + 4));
    let high = u64::from(u16_at(octets, place + 6));
    Protection {
        key_id: key / 64,
        pn: low + 65_536 * (middle + 65_536 * high),
        spare: octets[place + 2],
        bits: key % 32,
    }
}

/// The CCMP header at this place, where there is one.
fn protection_at(ccmp: bool, octets: &[u8], place: usize) -> Option<Protection>
    requires { ccmp ≡ true → place + 8 ≤ length octets.now }
    ensures { result ≡ protection_at ccmp octets.now place }
{
    if ccmp {
        Some(ccmp_at(octets, place))
    } else {
        None
    }
}

/// Where the payload of a frame with this first octet starts.
fn payload_start(first: u8) -> usize
    ensures { result ≡ payload_start first }
{
    if has_ccmp(first) {
        return header_end(first) + 8;
    }
    header_end(first)
}

/// The frame that octets make which pass all tests.
pub fn frame_at(octets: &[u8]) -> Frame<'_>
    requires { IsWhole octets.now }
    ensures made { value result ≡ frame_at octets.now }
    ensures within { length result.payload.now ≤ length octets.now }
{
    let first = octets[0];
    let header = header_at(octets);
    let protection = protection_at(has_ccmp(first), octets, header_end(first));
    let (_, payload) = octets.split_at(payload_start(first));
    Frame {
        header,
        protection,
        payload,
    }
}
