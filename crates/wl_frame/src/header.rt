//! Frames and their headers.

use crate::well_formed::{fields_len, header_fits, protects};
use wl_elem::{BODY_LIMIT, MacAddr, Memory, Tid};

/// Which frame it is: its type and subtype, and what only data has.
#[derive(Clone, Copy, Debug, PartialEq, Eq)]
pub enum Kind {
    /// QoS Data.
    Qos {
        /// To the AP (ToDS); from the AP (FromDS) where it is false.
        to_ap: bool,
        /// The TID of the QoS control.
        tid: Tid,
        /// The QoS control without its TID and its A-MSDU bit: B0 to B3 and B7 are clear.
        rest: u16,
    },
    /// Action.
    Action,
    /// Association Request.
    AssocAsk,
    /// Association Response.
    AssocReply,
}

impl Kind {
    ghost use Rattle.std.specs.Prelude.{◌≡◌};
    ghost use Rattle.wl_frame.specs.Frame.{is_protected};

    /// Whether such frames are protected: data and Action are, association frames aren't.
    pub fn is_protected(&self) -> bool
        ensures { result ≡ is_protected self.now }
    {
        match self {
            Kind::Qos { .. } | Kind::Action => true,
            Kind::AssocAsk | Kind::AssocReply => false,
        }
    }
}

/// What stands in the header of a frame (IEEE Std 802.11, 9.2.3 and 9.2.4).
#[derive(Clone, Copy, Debug, PartialEq, Eq)]
pub struct Header {
    /// Type and subtype, and the fields of data.
    pub kind: Kind,
    /// Sent again.
    pub retry: bool,
    /// Power management.
    pub power: bool,
    /// More data.
    pub more: bool,
    /// The Duration field as it stands.
    pub duration: u16,
    /// Address 1, the receiver's.
    pub a1: MacAddr,
    /// Address 2, the sender's.
    pub a2: MacAddr,
    /// Address 3.
    pub a3: MacAddr,
    /// The sequence number, below 4,096.
    pub number: u16,
}

/// What stands in the CCMP header (IEEE Std 802.11, 12.5.2.2).
#[derive(Clone, Copy, Debug, PartialEq, Eq)]
pub struct Protection {
    /// The key ID, 0 to 3.
    pub key_id: u8,
    /// The packet number, below 2^48.
    pub pn: u64,
    /// The reserved octet.
    pub spare: u8,
    /// The five reserved bits of the key octet, 0 to 31.
    pub bits: u8,
}

/// A frame. It has a protection exactly where it is data or Action.
#[derive(Clone, Copy, Debug, PartialEq, Eq)]
pub struct Frame<'a> {
    /// The header.
    pub header: Header,
    /// The CCMP header, where the frame is protected.
    pub protection: Option<Protection>,
    /// What follows the headers: the sealed text of a protected frame, else the body.
    pub payload: &'a [u8],
}

impl Frame<'_> {
    ghost use Rattle.std.specs.Prelude.{◌↔◌, IsOk, IsTrue, IfOk};
    ghost use Rattle.wl_frame.specs.Frame.{IsWritable};
    ghost use Rattle.wl_frame.specs.Reading.{value};

    /// Whether some octets are this frame's: exactly where `encode_frame` takes it. The sequence
    /// number is below 4,096, the kept bits of the QoS control are others than B0 to B3 and B7, a
    /// protection is there exactly for data and Action, its key ID is below 4, its packet number
    /// below 2^48 and its reserved bits below 32, and the octets are at most 16,777,216. It takes
    /// no memory and always answers Ok.
    pub fn well_formed(&self) -> Result<bool, Memory>
        ensures answers { IsOk result }
        ensures exact { IfOk result (λ answer. IsTrue answer ↔ IsWritable (value self.now)) }
    {
        let kind = &self.header.kind;
        let room = BODY_LIMIT - fields_len(kind);
        Ok(
            header_fits(self.header)
                && protects(kind, &self.protection)
                && self.payload.len() <= room,
        )
    }
}
