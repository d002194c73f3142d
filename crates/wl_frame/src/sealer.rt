//! What seals bodies.

ghost use Rattle.std.specs.Prelude.{◌≡◌, ◌≢◌, ℕ, ◌+◌, ◌≤◌, List, length, IfOk, IfSome, IfNone};
ghost use Rattle.wl_frame.specs.declared.key.Key.{Key};
ghost use Rattle.wl_frame.specs.Sealing.{Sealing, IsOctets, IsUnder, CanSeal, IsSealing};

use crate::aad::Aad;
use crate::key::Key;
use std::alloc::Global;
use wl_elem::{Bytes, Memory};

/// An authenticated cipher, as CCMP is one.
///
/// Its meaning is one function, `text`, fixed for the value: the sealed text of a key, a nonce, an
/// AAD and a body. For equal key, nonce and AAD two bodies have two texts, and a text has at most 64
/// octets more than its body. This is asked only where CCMP can seal (`CanSeal`): of octets, a nonce
/// of 13, an AAD of 22 or 24, and bodies of at most 65,535. What `text` is elsewhere is the
/// implementer's choice.
pub trait Sealer {
    ghost text: { Self → Sealing };

    /// The text of a body. `Memory` where there was none for it.
    fn seal(
        &self,
        alloc: Global,
        key: &Key,
        nonce: &[u8; 13],
        aad: &Aad,
        body: &[u8],
    ) -> Result<Bytes, Memory>
        ensures { IfOk result (λ t. t ≡ text self.now key.now nonce.now aad.now body.now) };

    /// The body whose text this is, which is no longer than the text. None exactly where it is the
    /// text of no body under this key, nonce and AAD. `Memory` where there was none for the body; it
    /// says nothing of the text.
    fn unseal(
        &self,
        alloc: Global,
        key: &Key,
        nonce: &[u8; 13],
        aad: &Aad,
        sealed: &[u8],
    ) -> Result<Option<Bytes>, Memory>
        ensures opened { IfOk result (λ o. IfSome o (λ b. sealed.now ≡ text self.now key.now nonce.now aad.now b)) }
        ensures shorter { IfOk result (λ o. IfSome o (λ b. length b ≤ length sealed.now)) }
        ensures closed { IfOk result (λ o. IfNone o ((b : List ℕ) → sealed.now ≢ text self.now key.now nonce.now aad.now b)) };

    ghost one_body: { (z : Self) (key : Key) (nonce aad body other : List ℕ) → CanSeal key nonce aad body → CanSeal key nonce aad other → text z key nonce aad body ≡ text z key nonce aad other → body ≡ other };

    ghost longer: { (z : Self) (key : Key) (nonce aad body : List ℕ) → CanSeal key nonce aad body → length (text z key nonce aad body) ≤ length body + 64 };
}

/// A sealer's meaning is a sealing.
pub fn sealer_is_sealing<Z: Sealer>(z: &Z)
    ensures { IsSealing (Z.text z.now) }
{}

/// The number of a key.
fn number_of(key: &Key) -> u16
    ensures { result ≡ key.now.number }
{
    key.number
}

/// A key, a nonce and an AAD of these types are such as can be sealed under.
pub fn can_seal_under(key: &Key, nonce: &[u8; 13], aad: &Aad)
    ensures { IsUnder key.now nonce.now aad.now }
{
    are_octets(key.base.as_slice());
    are_octets(nonce.as_slice());
    are_octets(aad.as_slice());
    aad.len();
    number_of(key);
}

/// The numbers of a slice of octets are octets.
pub fn are_octets(octets: &[u8])
    ensures { IsOctets octets.now }
{}
