//! Reconfiguration Multi-Link elements.

ghost use Rattle.std.specs.Prelude.{◌≡◌, ◌↔◌, IsTrue};
ghost use Rattle.wl_mle.specs.Layout.{reconf_spare};

use crate::change::LinkChange;
use crate::info::{Info, head_len, is_short};
use crate::subs::{Subelement, is_other_id, put_profile, read_profile, room_behind, subs_fit};
use std::alloc::Global;
use wl_elem::{
    Bytes, Fault, Item, List, ListKind, MacAddr, Memory, has_bit, mac_len, put_item, put_mac,
    put_u16, u16_len, width_if,
};

/// A Reconfiguration Multi-Link element (IEEE Std 802.11be, 9.4.2.312.4).
#[derive(Debug, Drop)]
pub struct Reconf {
    /// The bits 0xff08 of the control word, in their places.
    pub spare: u16,
    /// MLD MAC Address.
    pub mld: Option<MacAddr>,
    /// EML Capabilities.
    pub eml: Option<u16>,
    /// MLD Capabilities and Operations.
    pub caps: Option<u16>,
    /// Extended MLD Capabilities and Operations.
    pub ext: Option<u16>,
    /// What stands behind the known fields in Common Info.
    pub tail: Bytes,
    /// The subelements.
    pub subs: ReconfSubs,
}

/// A subelement of a Reconfiguration Multi-Link element.
#[derive(Debug, Drop)]
pub enum ReconfSub {
    /// A Per-STA Profile, of ID 0.
    Change(LinkChange),
    /// Another, whose ID is neither 0 nor 254.
    Other { id: u8, body: Bytes },
}

/// A list of subelements of a Reconfiguration Multi-Link element, in order.
pub type ReconfSubs = List<ReconfSub>;

impl Reconf {
    ghost use Rattle.wl_mle.specs.MultiLink.{IsReconf};

    /// Whether the value has octets.
    pub(crate) fn fits(&self) -> bool
        ensures { IsTrue result ↔ IsReconf self.now }
    {
        is_short(self) && reconf_spare(self.spare) == self.spare && subs_fit(self.subs.as_slice())
    }
}

impl Info for Reconf {
    ghost use Rattle.wl_mle.specs.Layout.{reconf_slots, reconf_control, reconf_fields};
    ghost use Rattle.wl_mle.specs.MultiLink.{IsReconf};
    ghost use Rattle.wl_mle.specs.Writing.{ReconfTyped};

    ghost slots = { reconf_slots };

    ghost word = { reconf_control };

    ghost fields = { reconf_fields };

    ghost tail = { λ r. r.tail };

    ghost IsInfo = { IsReconf };

    ghost IsTyped = { ReconfTyped };

    fn need(control: u16) -> usize {
        width_if(has_bit(control, 0x10), 6)
            + width_if(has_bit(control, 0x20), 2)
            + width_if(has_bit(control, 0x40), 2)
            + width_if(has_bit(control, 0x80), 2)
    }

    fn known_len(&self) -> usize {
        mac_len(self.mld) + u16_len(self.eml) + u16_len(self.caps) + u16_len(self.ext)
    }

    fn control(&self) -> u16 {
        2 + self.spare
            + 0x10 * u16::from(self.mld.is_some())
            + 0x20 * u16::from(self.eml.is_some())
            + 0x40 * u16::from(self.caps.is_some())
            + 0x80 * u16::from(self.ext.is_some())
    }

    fn put_known(&self, out: &mut Bytes) -> Result<(), Memory> {
        put_mac(out, self.mld)?;
        put_u16(out, self.eml)?;
        put_u16(out, self.caps)?;
        put_u16(out, self.ext)
    }

    fn tail(&self) -> &[u8] {
        self.tail.as_slice()
    }
}

impl Subelement for ReconfSub {
    ghost use Rattle.wl_mle.specs.Layout.{change_slots};
    ghost use Rattle.wl_mle.specs.MultiLink.{reconf_sub, IsReconfSub};
    ghost use Rattle.wl_mle.specs.Reading.{reconf_sub_at};

    ghost slots = { change_slots };

    ghost item = { reconf_sub };

    ghost at = { reconf_sub_at };

    ghost IsSub = { IsReconfSub };

    fn read(alloc: Global, s: &Item) -> Result<ReconfSub, Fault> {
        if s.id == 0 {
            let change = read_profile(alloc, s.octets.as_slice())?;
            return Ok(ReconfSub::Change(change));
        }
        let body = Bytes::from_slice(alloc, s.octets.as_slice())?;
        Ok(ReconfSub::Other { id: s.id, body })
    }

    fn fits(&self) -> bool {
        match self {
            ReconfSub::Change(c) => c.fits(),
            ReconfSub::Other { id, body: _ } => is_other_id(*id),
        }
    }

    #[tactic(auto, using(crate::proofs::Lengths::change_length))]
    fn room_behind(&self, room: usize) -> Option<usize> {
        match self {
            ReconfSub::Change(c) => room_behind(head_len(c), c.body.as_slice().len(), room),
            ReconfSub::Other { id: _, body } => room_behind(0, body.as_slice().len(), room),
        }
    }

    fn put(&self, alloc: Global, out: &mut Bytes) -> Result<(), Memory> {
        match self {
            ReconfSub::Change(c) => put_profile(alloc, out, c, &c.body),
            ReconfSub::Other { id, body } => {
                put_item(out, ListKind::Subelements, *id, body.as_slice())
            }
        }
    }
}

/// The bits 0xff08 of a control word.
pub fn reconf_spare(control: u16) -> u16
    ensures { result ≡ reconf_spare control }
{
    8 * (control / 8 % 2) + 0x100 * (control / 0x100)
}
