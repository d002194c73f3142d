//! A stand-in for a cipher.

ghost use Rattle.std.specs.Prelude.{◌≡◌, ◌↔◌, IsTrue};
ghost use Rattle.sha2.specs.Sha256.{sha256};
ghost use Rattle.wl_frame.specs.StandIn.{digested, tag, stand_in, stand_in_one_body, stand_in_longer};

use crate::aad::Aad;
use crate::key::Key;
use crate::sealer::Sealer;
use sha2::{Digest, Sha256};
use std::alloc::Global;
use wl_elem::{Bytes, Memory};

/// The digest over the key, the nonce, the AAD and a body.
fn digest_of(key: &Key, nonce: &[u8; 13], aad: &Aad, body: &[u8]) -> [u8; 32]
    ensures { result ≡ sha256 (digested key.now nonce.now aad.now body.now) }
{
    let number = key.number.to_be_bytes();
    let aad_len = u16::from(aad.len()).to_be_bytes();
    let mut hasher = Sha256::new();
    hasher.update(key.base.as_slice());
    hasher.update(number.as_slice());
    hasher.update(nonce.as_slice());
    hasher.update(aad_len.as_slice());
    hasher.update(aad.as_slice());
    hasher.update(body);
    hasher.finalize()
}

/// The tag of a body: the first 8 octets of the digest.
fn tag_of(key: &Key, nonce: &[u8; 13], aad: &Aad, body: &[u8]) -> [u8; 8]
    ensures { result ≡ tag key.now nonce.now aad.now body.now }
{
    let [t0, t1, t2, t3, t4, t5, t6, t7, ..] = digest_of(key, nonce, aad, body);
    [t0, t1, t2, t3, t4, t5, t6, t7]
}

/// Whether these octets are the tag of the body.
fn is_tag(last: &[u8], key: &Key, nonce: &[u8; 13], aad: &Aad, body: &[u8]) -> bool
    ensures { IsTrue result ↔ (last.now ≡ tag key.now nonce.now aad.now body.now) }
{
    let tag = tag_of(key, nonce, aad, body);
    last == tag.as_slice()
}

/// The body as it is, with a tag of 8 octets behind it.
///
/// It hides nothing: it is for tests and simulations, where what matters is that a text belongs to
/// one body, key, nonce and AAD.
#[derive(Clone, Copy, Debug)]
pub struct StandIn;

impl Sealer for StandIn {
    ghost text = { λ _ key nonce aad body. stand_in key nonce aad body };

    fn seal(
        &self,
        alloc: Global,
        key: &Key,
        nonce: &[u8; 13],
        aad: &Aad,
        body: &[u8],
    ) -> Result<Bytes, Memory> {
        let mut out = Bytes::from_slice(alloc, body)?;
        out.extend(tag_of(key, nonce, aad, body).as_slice())?;
        Ok(out)
    }

    fn unseal(
        &self,
        alloc: Global,
        key: &Key,
        nonce: &[u8; 13],
        aad: &Aad,
        sealed: &[u8],
    ) -> Result<Option<Bytes>, Memory> {
        if sealed.len() < 8 {
            return Ok(None);
        }
        let (body, last) = sealed.split_at(sealed.len() - 8);
        if !is_tag(last, key, nonce, aad, body) {
            return Ok(None);
        }
        let body = Bytes::from_slice(alloc, body)?;
        Ok(Some(body))
    }

    ghost one_body = { λ _ key nonce aad body other can too e. stand_in_one_body key nonce aad body other e };

    ghost longer = { λ _ key nonce aad body can. stand_in_longer key nonce aad body };
}
