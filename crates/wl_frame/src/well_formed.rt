//! The tests of a frame.

ghost use Rattle.std.specs.Prelude.{◌≡◌, ◌↔◌, ◌≤◌, IsTrue};
ghost use Rattle.wl_frame.specs.Frame.{IsQos, IsKind, IsHeader, IsProtection};
ghost use Rattle.wl_frame.specs.Reading.{Protects, fields_len};

use crate::header::{Header, Kind, Protection};
use wl_elem::Tid;

/// Whether the QoS control's kept bits leave the TID's and the A-MSDU bit clear.
fn qos_fits(tid: Tid, rest: u16) -> bool
    ensures { IsTrue result ↔ IsQos tid rest }
{
    rest % 16 == 0 && rest / 128 % 2 == 0
}

/// Whether the fields of data have room.
fn kind_fits(kind: &Kind) -> bool
    ensures { IsTrue result ↔ IsKind kind.now }
{
    match kind {
        Kind::Qos { tid, rest, .. } => qos_fits(*tid, *rest),
        Kind::Action | Kind::AssocAsk | Kind::AssocReply => true,
    }
}

/// Whether the header's numbers have room.
pub fn header_fits(header: Header) -> bool
    ensures { IsTrue result ↔ IsHeader header }
{
    header.number < 4096 && kind_fits(&header.kind)
}

/// Whether the CCMP header's numbers have room.
fn ccmp_fits(p: Protection) -> bool
    ensures { IsTrue result ↔ IsProtection p }
{
    p.key_id < 4 && p.pn < 1 << 48 && p.bits < 32
}

/// Whether a protection is there exactly where the kind has one, and has room.
pub fn protects(kind: &Kind, protection: &Option<Protection>) -> bool
    ensures { IsTrue result ↔ Protects kind.now protection.now }
{
    match protection {
        Some(p) => kind.is_protected() && ccmp_fits(*p),
        None => !kind.is_protected(),
    }
}

/// The octets before the payload.
pub fn fields_len(kind: &Kind) -> usize
    ensures value { result ≡ fields_len kind.now }
    ensures bound { result ≤ 34 }
{
    match kind {
        Kind::Qos { .. } => 34,
        Kind::Action => 32,
        Kind::AssocAsk | Kind::AssocReply => 24,
    }
}
