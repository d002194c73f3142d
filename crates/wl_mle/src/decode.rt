//! Reading the element's body.

ghost use Rattle.std.specs.Prelude.{◌≡◌, ◌≤◌, ◌+◌, ◌%◌, ◌==◌, ◌&&◌, List, ℕ, Result, IfOk, length, slice_index};
ghost use Rattle.wl_elem.specs.declared.fault.Refusal.{Refusal};
ghost use Rattle.wl_elem.specs.Answers.{Answers, AnswersOnly};
ghost use Rattle.wl_elem.specs.Bits.{has_bit};
ghost use Rattle.wl_elem.specs.Element.{body_limit};
ghost use Rattle.wl_elem.specs.Fields.{width_if};
ghost use Rattle.wl_elem.specs.Identity.{multi_link, HasExtension};
ghost use Rattle.wl_mle.specs.declared.multi_link.MultiLink.{MultiLink};
ghost use Rattle.wl_mle.specs.Fields.{need};
ghost use Rattle.wl_mle.specs.Layout.{basic_slots, reconf_slots};
ghost use Rattle.wl_mle.specs.MultiLink.{basic_fault, reconf_fault, ReadAs};
ghost use Rattle.wl_mle.specs.Reading.{fields_at, after_fields, common_of, reconf_of, basic_with, reconf_with, ReadsBehind, ReadsWord, ReadsBody};

use crate::basic::{Basic, Common, basic_spare};
use crate::info::{Info, control_of, info_of};
use crate::laws::read_once;
use crate::multi_link::MultiLink;
use crate::reconf::{Reconf, ReconfSubs, reconf_spare};
use crate::subs::read_subs;
use std::alloc::Global;
use wl_elem::{
    Bytes, Element, Fault, ListKind, Memory, Why, cut_items, first_mac, has_bit, mac_if, u8_if,
    u16_if,
};

/// The fields of Common Info of a Basic element.
fn common_of(alloc: Global, control: u16, area: &[u8]) -> Result<Common, Memory>
    requires { need (basic_slots control) ≤ length area.now }
    ensures { IfOk result (λ c. c ≡ common_of (fields_at (basic_slots control) area.now) (after_fields (basic_slots control) area.now)) }
{
    let (mld, rest) = first_mac(area);
    let (link, rest) = u8_if(has_bit(control, 0x10), rest);
    let (count, rest) = u8_if(has_bit(control, 0x20), rest);
    let (sync, rest) = u16_if(has_bit(control, 0x40), rest);
    let (eml, rest) = u16_if(has_bit(control, 0x80), rest);
    let (caps, rest) = u16_if(has_bit(control, 0x100), rest);
    let (apid, rest) = u8_if(has_bit(control, 0x200), rest);
    let (ext, rest) = u16_if(has_bit(control, 0x400), rest);
    let tail = Bytes::from_slice(alloc, rest)?;
    Ok(Common {
        mld,
        link,
        count,
        sync,
        eml,
        caps,
        apid,
        ext,
        tail,
    })
}

/// Whether Link ID Info is there and has the reserved link ID.
fn has_reserved_link(control: u16, rest: &[u8]) -> bool
    requires { width_if (has_bit control 0x10) 8 ≤ length rest.now }
    ensures { result ≡ (has_bit control 0x10 && (slice_index rest.now 7 % 16 == 15)) }
{
    has_bit(control, 0x10) && rest[7] % 16 == 15
}

/// Reads a Basic element behind its control word.
fn read_basic(alloc: Global, control: u16, rest: &[u8]) -> Result<MultiLink, Fault>
    requires { length rest.now + 2 ≤ body_limit }
    ensures { Answers result (ReadsBehind (basic_fault control rest.now) (basic_with control rest.now) rest.now) }
{
    let least = Basic::need(control);
    let (area, behind) = info_of(least, Why::CommonShort, Why::CommonLong, rest)?;
    if has_reserved_link(control, rest) {
        return Err(Fault::at(9, Why::ReservedLink));
    }
    let list = match cut_items(alloc, ListKind::Subelements, behind) {
        Ok(list) => list,
        Err(stop) => return Err(stop.fault(rest.len() + 2)),
    };
    let common = common_of(alloc, control, area)?;
    let subs = read_subs(alloc, list.as_slice())?;
    Ok(MultiLink::Basic(Basic {
        spare: basic_spare(control),
        common,
        subs,
    }))
}

/// The fields of Common Info of a Reconfiguration element, with its subelements.
fn reconf_of(alloc: Global, control: u16, area: &[u8], subs: ReconfSubs) -> Result<Reconf, Memory>
    requires { need (reconf_slots control) ≤ length area.now }
    ensures { IfOk result (λ r. r ≡ reconf_of control (fields_at (reconf_slots control) area.now) (after_fields (reconf_slots control) area.now) subs) }
{
    let (mld, rest) = mac_if(has_bit(control, 0x10), area);
    let (eml, rest) = u16_if(has_bit(control, 0x20), rest);
    let (caps, rest) = u16_if(has_bit(control, 0x40), rest);
    let (ext, rest) = u16_if(has_bit(control, 0x80), rest);
    let tail = Bytes::from_slice(alloc, rest)?;
    Ok(Reconf {
        spare: reconf_spare(control),
        mld,
        eml,
        caps,
        ext,
        tail,
        subs,
    })
}

/// Reads a Reconfiguration element behind its control word.
fn read_reconf(alloc: Global, control: u16, rest: &[u8]) -> Result<MultiLink, Fault>
    requires { length rest.now + 2 ≤ body_limit }
    ensures { Answers result (ReadsBehind (reconf_fault control rest.now) (reconf_with control rest.now) rest.now) }
{
    let least = Reconf::need(control);
    let (area, behind) = info_of(least, Why::CommonShort, Why::CommonLong, rest)?;
    let list = match cut_items(alloc, ListKind::Subelements, behind) {
        Ok(list) => list,
        Err(stop) => return Err(stop.fault(rest.len() + 2)),
    };
    let subs = read_subs(alloc, list.as_slice())?;
    let value = reconf_of(alloc, control, area, subs)?;
    Ok(MultiLink::Reconfiguration(value))
}

/// Reads an element behind its control word, by its type.
fn read_word(alloc: Global, control: u16, rest: &[u8]) -> Result<MultiLink, Fault>
    requires { length rest.now + 2 ≤ body_limit }
    ensures { Answers result (ReadsWord control rest.now) }
{
    if control % 8 == 0 {
        return read_basic(alloc, control, rest);
    }
    if control % 8 == 2 {
        return read_reconf(alloc, control, rest);
    }
    let body = Bytes::from_slice(alloc, rest)?;
    Ok(MultiLink::Other { control, body })
}

/// The value that a body is read as.
fn value_of_body(alloc: Global, body: &[u8]) -> Result<MultiLink, Fault>
    requires { length body.now ≤ body_limit }
    ensures { Answers result (ReadsBody body.now) }
{
    if body.len() < 2 {
        return Err(Fault::at(0, Why::ControlShort));
    }
    let (control, rest) = control_of(body);
    read_word(alloc, control, rest)
}

/// Reads a body.
fn decode_body(alloc: Global, body: &[u8]) -> Result<MultiLink, Fault>
    requires { length body.now ≤ body_limit }
    ensures read { Answers result (ReadAs body.now) }
    ensures only { (reading : Result MultiLink Refusal) → ReadAs body.now reading → AnswersOnly result reading }
{
    read_once();
    wl_elem::items_are_octets();
    value_of_body(alloc, body)
}

/// Reads a Multi-Link element, whose identity is 255/107.
///
/// Ok exactly where the body is that of a value; each value has one body. Otherwise, in this order:
/// ControlShort at 0 where there is no control word; of Basic and Reconfiguration CommonShort at 2
/// where Common Info has no length octet or one below what the presence bits need, CommonLong at 2
/// where its length passes the body's end, ReservedLink at 9 where Link ID Info of Basic has link ID
/// 15; then the refusal of the first piece of the subelements, at the place of its header: in this
/// order SubTruncated where fewer than 2 octets are left, StrayFragment where a Fragment doesn't
/// directly follow a piece of Length 255, EmptyFragment where it has Length 0, SubTruncated where
/// fewer octets are left than the Length; then, with `sub`, that of the first profile: InfoShort at 0
/// where it has fewer than 3 octets, ReservedLink at 0 where its link ID is 15, InfoShort at 2 where
/// the length of STA Info is below what the control word needs, InfoLong at 2 where it passes the
/// profile's end. `Memory` where there was none for the value; it says nothing of the body.
pub fn decode_ml(alloc: Global, element: &Element) -> Result<MultiLink, Fault>
    requires { HasExtension element.now multi_link }
    ensures read { Answers result (ReadAs element.now.body) }
    ensures only { (reading : Result MultiLink Refusal) → ReadAs element.now.body reading → AnswersOnly result reading }
{
    decode_body(alloc, element.body())
}
