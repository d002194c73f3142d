//! What is sealed with a body without being in it.

ghost use Rattle.std.specs.Prelude.{◌≡◌, ◌⊎◌, ◌∷◌, ◌++◌, [], IsTrue, length, take, drop};
ghost use Rattle.wl_frame.specs.Frame.{is_protected};
ghost use Rattle.wl_frame.specs.Aad.{aad};
ghost use Rattle.wl_frame.specs.Padding.{IsPadded};

use crate::encode::direction_bits;
use crate::header::{Header, Kind};
use crate::octets::{ACTION, QOS_DATA};
use std::marker::Model;
use wl_elem::MacAddr;

/// The additional authentication data of a frame: 24 octets for data, 22 for Action.
#[derive(Clone, Copy, Debug, PartialEq, Eq)]
pub struct Aad {
    octets: [u8; 24],
    len: u8,
}

impl Model for Aad {
    ghost use Rattle.std.specs.Prelude.{◌≡◌, ℕ, List, length, take};
    ghost use Rattle.std.proofs.Common.{ap, ◌∙◌};
    ghost use Rattle.wl_frame.specs.Padding.{IsPadded, padded, padded_back, length_back};

    ghost Value = { List ℕ };

    ghost view = { λ a. take a.len a.octets };

    ghost invariant = { λ a. IsPadded a.octets a.len };

    ghost inverse = { λ o. record { octets = padded o; len = length o } };

    ghost inverse_ok = { λ a h. ap (λ (o : List ℕ). record { octets = o; len = length (take a.len a.octets) }) (padded_back a.octets a.len h) ∙ ap (λ (n : ℕ). record { octets = a.octets; len = n }) (length_back a.octets a.len h) };
}

impl Aad {
    /// Its octets, 22 or 24.
    pub fn as_slice(&self) -> &[u8]
        ensures { result.now ≡ self.now }
    {
        let (front, _) = self.octets.split_at(self.len as usize);
        front
    }

    /// How many octets there are, 22 or 24.
    pub fn len(&self) -> u8
        ensures value { result ≡ length self.now }
        ensures one_of_two { (result ≡ 22) ⊎ (result ≡ 24) }
    {
        self.len
    }
}

/// The first of these octets, those behind them being 0.
fn first_octets(octets: [u8; 24], len: u8) -> Aad
    requires { IsPadded octets len }
    ensures { result ≡ take len octets }
{
    Aad { octets, len }
}

/// Twenty-four octets with the three addresses at their places.
fn laid_out(first: u8, second: u8, a1: MacAddr, a2: MacAddr, a3: MacAddr, tid: u8) -> [u8; 24]
    ensures full { length result ≡ 24 }
    ensures whole { result ≡ first ∷ second ∷ (a1 ++ (a2 ++ (a3 ++ (0 ∷ 0 ∷ tid ∷ 0 ∷ [])))) }
    ensures front { take 22 result ≡ first ∷ second ∷ (a1 ++ (a2 ++ (a3 ++ (0 ∷ 0 ∷ [])))) }
    ensures behind { drop 22 result ≡ tid ∷ 0 ∷ [] }
{
    let a = a1.octets();
    let b = a2.octets();
    let c = a3.octets();
    [
        first, second, a[0], a[1], a[2], a[3], a[4], a[5], b[0], b[1], b[2], b[3], b[4], b[5],
        c[0], c[1], c[2], c[3], c[4], c[5], 0, 0, tid, 0,
    ]
}

/// The AAD of a frame with this header between these MLD addresses: `a1` the receiver's, `a2` the
/// sender's, `a3` that of the AP MLD, whatever the frame's own addresses are. Of the header it has
/// the kind alone, with direction and TID: what the link or a repetition changes isn't in it.
///
/// Condition: data or Action. It takes no memory.
pub fn aad_of(header: &Header, a1: MacAddr, a2: MacAddr, a3: MacAddr) -> Aad
    requires { IsTrue (is_protected header.now.kind) }
    ensures { result ≡ aad header.now.kind a1 a2 a3 }
{
    let second = 0x40 + direction_bits(&header.kind);
    match header.kind {
        Kind::Qos { tid, .. } => {
            let octets = laid_out(QOS_DATA, second, a1, a2, a3, tid.get());
            first_octets(octets, 24)
        }
        _ => {
            let octets = laid_out(ACTION, second, a1, a2, a3, 0);
            first_octets(octets, 22)
        }
    }
}
