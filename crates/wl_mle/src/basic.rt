//! Basic Multi-Link elements.

ghost use Rattle.std.specs.Prelude.{◌≡◌, ◌↔◌, ◌≢◌, ◌%◌, IsTrue, IfSome};
ghost use Rattle.wl_mle.specs.Layout.{basic_spare};

use crate::info::{Info, head_len, is_short};
use crate::profile::Profile;
use crate::subs::{Subelement, is_other_id, put_profile, read_profile, room_behind, subs_fit};
use std::alloc::Global;
use wl_elem::{
    Bytes, Fault, Item, List, ListKind, MacAddr, Memory, has_bit, mac_len, put_item, put_mac,
    put_u8, put_u16, u8_len, u16_len, width_if,
};

/// A Basic Multi-Link element (IEEE Std 802.11be, 9.4.2.312.2).
#[derive(Debug, Drop)]
pub struct Basic {
    /// The bits 0xf808 of the control word, in their places.
    pub spare: u16,
    /// Common Info.
    pub common: Common,
    /// The subelements.
    pub subs: BasicSubs,
}

/// Common Info of a Basic Multi-Link element (IEEE Std 802.11be, 9.4.2.312.2.3).
#[derive(Debug, Drop)]
pub struct Common {
    /// MLD MAC Address.
    pub mld: MacAddr,
    /// Link ID Info: the low four bits are a link ID, which isn't 15.
    pub link: Option<u8>,
    /// BSS Parameters Change Count.
    pub count: Option<u8>,
    /// Medium Synchronization Delay Information.
    pub sync: Option<u16>,
    /// EML Capabilities.
    pub eml: Option<u16>,
    /// MLD Capabilities and Operations.
    pub caps: Option<u16>,
    /// AP MLD ID.
    pub apid: Option<u8>,
    /// Extended MLD Capabilities and Operations.
    pub ext: Option<u16>,
    /// What stands behind the known fields in Common Info.
    pub tail: Bytes,
}

/// A subelement of a Basic Multi-Link element.
#[derive(Debug, Drop)]
pub enum BasicSub {
    /// A Per-STA Profile, of ID 0.
    Profile(Profile),
    /// Another, whose ID is neither 0 nor 254.
    Other { id: u8, body: Bytes },
}

/// A list of subelements of a Basic Multi-Link element, in order.
pub type BasicSubs = List<BasicSub>;

impl Basic {
    ghost use Rattle.wl_mle.specs.MultiLink.{IsBasic};

    /// Whether the value has octets.
    pub(crate) fn fits(&self) -> bool
        ensures { IsTrue result ↔ IsBasic self.now }
    {
        is_short(self)
            && basic_spare(self.spare) == self.spare
            && self.has_free_link()
            && subs_fit(self.subs.as_slice())
    }

    /// Whether Link ID Info hasn't the reserved link ID.
    fn has_free_link(&self) -> bool
        ensures { IsTrue result ↔ IfSome self.now.common.link (λ link. link % 16 ≢ 15) }
    {
        match self.common.link {
            Some(link) => link % 16 != 15,
            None => true,
        }
    }
}

impl Info for Basic {
    ghost use Rattle.wl_mle.specs.Layout.{basic_slots, basic_control, basic_fields};
    ghost use Rattle.wl_mle.specs.MultiLink.{IsBasic};
    ghost use Rattle.wl_mle.specs.Writing.{BasicTyped};

    ghost slots = { basic_slots };

    ghost word = { basic_control };

    ghost fields = { λ b. basic_fields b.common };

    ghost tail = { λ b. b.common.tail };

    ghost IsInfo = { IsBasic };

    ghost IsTyped = { BasicTyped };

    fn need(control: u16) -> usize {
        6 + width_if(has_bit(control, 0x10), 1)
            + width_if(has_bit(control, 0x20), 1)
            + width_if(has_bit(control, 0x40), 2)
            + width_if(has_bit(control, 0x80), 2)
            + width_if(has_bit(control, 0x100), 2)
            + width_if(has_bit(control, 0x200), 1)
            + width_if(has_bit(control, 0x400), 2)
    }

    fn known_len(&self) -> usize {
        let c = &self.common;
        mac_len(Some(c.mld))
            + u8_len(c.link)
            + u8_len(c.count)
            + u16_len(c.sync)
            + u16_len(c.eml)
            + u16_len(c.caps)
            + u8_len(c.apid)
            + u16_len(c.ext)
    }

    fn control(&self) -> u16 {
        let c = &self.common;
        self.spare
            + 0x10 * u16::from(c.link.is_some())
            + 0x20 * u16::from(c.count.is_some())
            + 0x40 * u16::from(c.sync.is_some())
            + 0x80 * u16::from(c.eml.is_some())
            + 0x100 * u16::from(c.caps.is_some())
            + 0x200 * u16::from(c.apid.is_some())
            + 0x400 * u16::from(c.ext.is_some())
    }

    fn put_known(&self, out: &mut Bytes) -> Result<(), Memory> {
        let c = &self.common;
        put_mac(out, Some(c.mld))?;
        put_u8(out, c.link)?;
        put_u8(out, c.count)?;
        put_u16(out, c.sync)?;
        put_u16(out, c.eml)?;
        put_u16(out, c.caps)?;
        put_u8(out, c.apid)?;
        put_u16(out, c.ext)?;
        Ok(())
    }

    fn tail(&self) -> &[u8] {
        self.common.tail.as_slice()
    }
}

impl Subelement for BasicSub {
    ghost use Rattle.wl_mle.specs.Layout.{profile_slots};
    ghost use Rattle.wl_mle.specs.MultiLink.{basic_sub, IsBasicSub};
    ghost use Rattle.wl_mle.specs.Reading.{basic_sub_at};

    ghost slots = { profile_slots };

    ghost item = { basic_sub };

    ghost at = { basic_sub_at };

    ghost IsSub = { IsBasicSub };

    fn read(alloc: Global, s: &Item) -> Result<BasicSub, Fault> {
        if s.id == 0 {
            let profile = read_profile(alloc, s.octets.as_slice())?;
            return Ok(BasicSub::Profile(profile));
        }
        let body = Bytes::from_slice(alloc, s.octets.as_slice())?;
        Ok(BasicSub::Other { id: s.id, body })
    }

    fn fits(&self) -> bool {
        match self {
            BasicSub::Profile(p) => p.fits(),
            BasicSub::Other { id, body: _ } => is_other_id(*id),
        }
    }

    #[tactic(auto, using(crate::proofs::Lengths::profile_length))]
    fn room_behind(&self, room: usize) -> Option<usize> {
        match self {
            BasicSub::Profile(p) => room_behind(head_len(p), p.body.as_slice().len(), room),
            BasicSub::Other { id: _, body } => room_behind(0, body.as_slice().len(), room),
        }
    }

    fn put(&self, alloc: Global, out: &mut Bytes) -> Result<(), Memory> {
        match self {
            BasicSub::Profile(p) => put_profile(alloc, out, p, &p.body),
            BasicSub::Other { id, body } => {
                put_item(out, ListKind::Subelements, *id, body.as_slice())
            }
        }
    }
}

/// The bits 0xf808 of a control word.
pub fn basic_spare(control: u16) -> u16
    ensures { result ≡ basic_spare control }
{
    8 * (control / 8 % 2) + 0x800 * (control / 0x800)
}
