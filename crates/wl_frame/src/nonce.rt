//! The nonce of a frame.

ghost use Rattle.std.specs.Prelude.{◌≡◌, ◌<◌, ◌^◌, IsTrue, length};
ghost use Rattle.wl_frame.specs.Frame.{is_protected};
ghost use Rattle.wl_frame.specs.Nonce.{nonce, nonce_flags};

use crate::header::{Header, Kind};
use wl_elem::MacAddr;

/// The flags octet.
fn nonce_flags(kind: &Kind) -> u8
    ensures { result ≡ nonce_flags kind.now }
{
    match kind {
        Kind::Qos { tid, .. } => tid.get(),
        Kind::Action | Kind::AssocAsk | Kind::AssocReply => 0x10,
    }
}

/// The nonce of a frame with this header: `a2` is the sender's MLD address, whatever the frame's own
/// is, and `pn` the packet number. No two frames of a sender under one key have the same nonce,
/// unless they have one packet number on one lane.
///
/// Conditions: data or Action, and `pn` is below 2^48. It takes no memory.
pub fn nonce_of(header: &Header, a2: MacAddr, pn: u64) -> [u8; 13]
    requires protected { IsTrue (is_protected header.now.kind) }
    requires pn_fits { pn < 2 ^ 48 }
    ensures value { result ≡ nonce header.now.kind a2 pn }
    ensures thirteen { length result ≡ 13 }
{
    let flags = nonce_flags(&header.kind);
    let a = a2.octets();
    let [pn0, pn1, pn2, pn3, pn4, pn5, _, _] = pn.to_le_bytes();
    [
        flags, a[0], a[1], a[2], a[3], a[4], a[5], pn5, pn4, pn3, pn2, pn1, pn0,
    ]
}
