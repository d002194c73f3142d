//! The values of association bodies.

ghost use Rattle.std.specs.Prelude.{◌↔◌, ◌<◌, ◌^◌, IsOk, IsTrue, IfOk, length};

use wl_elem::{BODY_LIMIT, Elements, Memory, encoded_len, spelled, u16_len};

/// The body of an Association Request frame (IEEE Std 802.11, 9.3.3.5).
#[derive(Debug, Drop)]
pub struct AssocAsk {
    /// Capability Information.
    pub capability: u16,
    /// Listen Interval.
    pub listen: u16,
    /// The elements behind the fixed fields.
    pub elements: Elements,
}

impl AssocAsk {
    ghost use Rattle.wl_assoc.specs.Association.{IsAskWritable};

    /// Whether some body has this value: exactly where `encode_ask` takes it. The body has at most
    /// 16,777,216 octets. It takes no memory and always answers Ok. There are fewer than 2^32
    /// elements.
    pub fn well_formed(&self) -> Result<bool, Memory>
        requires { length self.now.elements < 2 ^ 32 }
        ensures answers { IsOk result }
        ensures exact { IfOk result (λ answer. IsTrue answer ↔ IsAskWritable self.now) }
    {
        spelled();
        let fixed = u16_len(Some(self.capability)) + u16_len(Some(self.listen));
        Ok(encoded_len(&self.elements) <= (BODY_LIMIT - fixed) as u64)
    }
}

/// The body of an Association Response frame (IEEE Std 802.11, 9.3.3.6).
#[derive(Debug, Drop)]
pub struct AssocReply {
    /// Capability Information.
    pub capability: u16,
    /// Status Code, 0 where the association was accepted.
    pub status: u16,
    /// The AID field as it stands, with its two top bits.
    pub aid: u16,
    /// The elements behind the fixed fields.
    pub elements: Elements,
}

impl AssocReply {
    ghost use Rattle.wl_assoc.specs.Association.{IsReplyWritable};

    /// Whether some body has this value: exactly where `encode_reply` takes it. The body has at most
    /// 16,777,216 octets. It takes no memory and always answers Ok. There are fewer than 2^32
    /// elements.
    pub fn well_formed(&self) -> Result<bool, Memory>
        requires { length self.now.elements < 2 ^ 32 }
        ensures answers { IsOk result }
        ensures exact { IfOk result (λ answer. IsTrue answer ↔ IsReplyWritable self.now) }
    {
        spelled();
        let fixed = u16_len(Some(self.capability))
            + u16_len(Some(self.status))
            + u16_len(Some(self.aid));
        Ok(encoded_len(&self.elements) <= (BODY_LIMIT - fixed) as u64)
    }
}
