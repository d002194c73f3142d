//! Profiles of a Reconfiguration Multi-Link element.

ghost use Rattle.std.specs.Prelude.{◌↔◌, IsTrue};

use crate::info::{Info, StaInfo, is_short};
use std::alloc::Global;
use wl_elem::{
    Bytes, LinkId, MacAddr, Memory, has_bit, mac_if, mac_len, put_mac, put_u16, u16_if, u16_len,
    width_if,
};

/// A Per-STA Profile of a Reconfiguration Multi-Link element (IEEE Std 802.11be, 9.4.2.312.4).
#[derive(Debug, Drop)]
pub struct LinkChange {
    /// The link that it is of.
    pub link: LinkId,
    /// Whether it is complete.
    pub complete: bool,
    /// The operation, 0 to 15: 0 AP removal, 1 parameter update, 2 add link, 3 delete link, 4 NSTR
    /// status.
    pub op: u8,
    /// Operation Parameters Present. The parameters stand in `tail`.
    pub params: bool,
    /// The four top bits of the control word, 0 to 15.
    pub spare: u8,
    /// STA MAC Address.
    pub mac: Option<MacAddr>,
    /// AP Removal Timer.
    pub timer: Option<u16>,
    /// What stands behind the known fields in STA Info.
    pub tail: Bytes,
    /// What stands behind STA Info.
    pub body: Bytes,
}

impl LinkChange {
    ghost use Rattle.wl_mle.specs.MultiLink.{IsChange};

    /// Whether the value has octets.
    pub(crate) fn fits(&self) -> bool
        ensures { IsTrue result ↔ IsChange self.now }
    {
        // a link ID is below 15, as this call says
        self.link.get();
        is_short(self) && self.spare < 16 && self.op < 16
    }
}

impl Info for LinkChange {
    ghost use Rattle.wl_mle.specs.Layout.{change_slots, change_control, change_fields};
    ghost use Rattle.wl_mle.specs.MultiLink.{IsChange};
    ghost use Rattle.wl_mle.specs.Writing.{ChangeTyped};

    ghost slots = { change_slots };

    ghost word = { change_control };

    ghost fields = { change_fields };

    ghost tail = { λ c. c.tail };

    ghost IsInfo = { IsChange };

    ghost IsTyped = { ChangeTyped };

    fn need(control: u16) -> usize {
        width_if(has_bit(control, 0x20), 6) + width_if(has_bit(control, 0x40), 2)
    }

    fn known_len(&self) -> usize {
        mac_len(self.mac) + u16_len(self.timer)
    }

    fn control(&self) -> u16 {
        u16::from(self.link.get())
            + 0x10 * u16::from(self.complete)
            + 0x20 * u16::from(self.mac.is_some())
            + 0x40 * u16::from(self.timer.is_some())
            + 0x80 * u16::from(self.op)
            + 0x800 * u16::from(self.params)
            + 0x1000 * u16::from(self.spare)
    }

    fn put_known(&self, out: &mut Bytes) -> Result<(), Memory> {
        put_mac(out, self.mac)?;
        put_u16(out, self.timer)
    }

    fn tail(&self) -> &[u8] {
        self.tail.as_slice()
    }
}

impl StaInfo for LinkChange {
    ghost use Rattle.wl_mle.specs.Reading.{change_of};

    ghost made = { change_of };

    fn of_area(
        alloc: Global,
        control: u16,
        link: LinkId,
        area: &[u8],
        body: &[u8],
    ) -> Result<LinkChange, Memory> {
        let (mac, rest) = mac_if(has_bit(control, 0x20), area);
        let (timer, rest) = u16_if(has_bit(control, 0x40), rest);
        let tail = Bytes::from_slice(alloc, rest)?;
        let body = Bytes::from_slice(alloc, body)?;
        Ok(LinkChange {
            link,
            complete: has_bit(control, 0x10),
            op: (control / 0x80 % 16) as u8,
            params: has_bit(control, 0x800),
            spare: (control / 0x1000) as u8,
            mac,
            timer,
            tail,
            body,
        })
    }
}
