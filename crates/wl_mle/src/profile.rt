//! Profiles of a Basic Multi-Link element.

ghost use Rattle.std.specs.Prelude.{◌≡◌, ◌↔◌, ◌+◌, ◌⊎◌, ◌&&◌, IsTrue, length, is_some};
ghost use Rattle.wl_elem.specs.Bits.{has_bit};
ghost use Rattle.wl_elem.specs.Fields.{Fits};
ghost use Rattle.wl_mle.specs.Layout.{nstr_width};

use crate::info::{Info, StaInfo, head_len, is_short};
use std::alloc::Global;
use wl_elem::{
    Bytes, LinkId, MacAddr, Memory, has_bit, mac_if, mac_len, put_mac, put_short, put_u8, put_u16,
    put_u64, short_if, short_len, u8_if, u8_len, u16_if, u16_len, u64_if, u64_len, width_if,
};

/// A Per-STA Profile of a Basic Multi-Link element (IEEE Std 802.11be, 9.4.2.312.2.4).
#[derive(Debug, Drop)]
pub struct Profile {
    /// The link that it is of.
    pub link: LinkId,
    /// Whether it is complete.
    pub complete: bool,
    /// NSTR Link Pair Present.
    pub pair: bool,
    /// NSTR Bitmap Size: two octets, else one.
    pub wide: bool,
    /// The four top bits of the control word, 0 to 15.
    pub spare: u8,
    /// STA MAC Address.
    pub mac: Option<MacAddr>,
    /// Beacon Interval.
    pub beacon: Option<u16>,
    /// TSF Offset.
    pub tsf: Option<u64>,
    /// DTIM Info, its count in the low octet.
    pub dtim: Option<u16>,
    /// NSTR Indication Bitmap, which is there exactly where `complete` and `pair` are set.
    pub nstr: Option<u16>,
    /// BSS Parameters Change Count.
    pub count: Option<u8>,
    /// What stands behind the known fields in STA Info.
    pub tail: Bytes,
    /// What stands behind STA Info.
    pub body: Bytes,
}

impl Profile {
    ghost use Rattle.wl_mle.specs.Layout.{body_place};
    ghost use Rattle.wl_mle.specs.MultiLink.{IsProfile, profile_text};

    /// Where the body begins in the joined subelement: behind the control word and STA Info.
    #[tactic(auto, using(crate::proofs::Writing::known_length, crate::proofs::Lengths::profile_length))]
    pub fn body_place(&self) -> usize
        requires { IsProfile self.now }
        ensures place { result ≡ body_place self.now }
        ensures within { result + length self.now.body ≡ length (profile_text self.now) }
    {
        head_len(self)
    }

    /// Whether the value has octets.
    pub(crate) fn fits(&self) -> bool
        ensures { IsTrue result ↔ IsProfile self.now }
    {
        // a link ID is below 15, as this call says
        self.link.get();
        is_short(self) && self.spare < 16 && self.nstr_fits()
    }

    /// Whether the NSTR bitmap has room, and is there exactly where it is to be.
    fn nstr_fits(&self) -> bool
        ensures { IsTrue result ↔ (Fits (nstr_width self.now.wide) self.now.nstr × (is_some self.now.nstr ≡ (self.now.complete && self.now.pair))) }
    {
        let room = match self.nstr {
            Some(n) => self.wide || n < 256,
            None => true,
        };
        room && self.nstr.is_some() == (self.complete && self.pair)
    }
}

impl Info for Profile {
    ghost use Rattle.wl_mle.specs.Layout.{profile_slots, profile_control, profile_fields};
    ghost use Rattle.wl_mle.specs.MultiLink.{IsProfile};
    ghost use Rattle.wl_mle.specs.Writing.{ProfileTyped};

    ghost slots = { profile_slots };

    ghost word = { profile_control };

    ghost fields = { profile_fields };

    ghost tail = { λ p. p.tail };

    ghost IsInfo = { IsProfile };

    ghost IsTyped = { ProfileTyped };

    fn need(control: u16) -> usize {
        width_if(has_bit(control, 0x20), 6)
            + width_if(has_bit(control, 0x40), 2)
            + width_if(has_bit(control, 0x80), 8)
            + width_if(has_bit(control, 0x100), 2)
            + width_if(has_nstr(control), nstr_width(has_bit(control, 0x400)))
            + width_if(has_bit(control, 0x800), 1)
    }

    fn known_len(&self) -> usize {
        mac_len(self.mac)
            + u16_len(self.beacon)
            + u64_len(self.tsf)
            + u16_len(self.dtim)
            + short_len(nstr_width(self.wide), self.nstr)
            + u8_len(self.count)
    }

    fn control(&self) -> u16 {
        u16::from(self.link.get())
            + 0x10 * u16::from(self.complete)
            + 0x20 * u16::from(self.mac.is_some())
            + 0x40 * u16::from(self.beacon.is_some())
            + 0x80 * u16::from(self.tsf.is_some())
            + 0x100 * u16::from(self.dtim.is_some())
            + 0x200 * u16::from(self.pair)
            + 0x400 * u16::from(self.wide)
            + 0x800 * u16::from(self.count.is_some())
            + 0x1000 * u16::from(self.spare)
    }

    fn put_known(&self, out: &mut Bytes) -> Result<(), Memory> {
        put_mac(out, self.mac)?;
        put_u16(out, self.beacon)?;
        put_u64(out, self.tsf)?;
        put_u16(out, self.dtim)?;
        put_short(out, nstr_width(self.wide), self.nstr)?;
        put_u8(out, self.count)?;
        Ok(())
    }

    fn tail(&self) -> &[u8] {
        self.tail.as_slice()
    }
}

impl StaInfo for Profile {
    ghost use Rattle.wl_mle.specs.Reading.{profile_of};

    ghost made = { profile_of };

    fn of_area(
        alloc: Global,
        control: u16,
        link: LinkId,
        area: &[u8],
        body: &[u8],
    ) -> Result<Profile, Memory> {
        let wide = has_bit(control, 0x400);
        let (mac, rest) = mac_if(has_bit(control, 0x20), area);
        let (beacon, rest) = u16_if(has_bit(control, 0x40), rest);
        let (tsf, rest) = u64_if(has_bit(control, 0x80), rest);
        let (dtim, rest) = u16_if(has_bit(control, 0x100), rest);
        let (nstr, rest) = short_if(has_nstr(control), nstr_width(wide), rest);
        let (count, rest) = u8_if(has_bit(control, 0x800), rest);
        let tail = Bytes::from_slice(alloc, rest)?;
        let body = Bytes::from_slice(alloc, body)?;
        Ok(Profile {
            link,
            complete: has_bit(control, 0x10),
            pair: has_bit(control, 0x200),
            wide,
            spare: (control / 0x1000) as u8,
            mac,
            beacon,
            tsf,
            dtim,
            nstr,
            count,
            tail,
            body,
        })
    }
}

/// How many octets an NSTR bitmap takes.
fn nstr_width(wide: bool) -> usize
    ensures exact { result ≡ nstr_width wide }
    ensures one_or_two { (result ≡ 1) ⊎ (result ≡ 2) }
{
    if wide { 2 } else { 1 }
}

/// Whether a profile has an NSTR bitmap.
fn has_nstr(control: u16) -> bool
    ensures { result ≡ (has_bit control 0x10 && has_bit control 0x200) }
{
    has_bit(control, 0x10) && has_bit(control, 0x200)
}
