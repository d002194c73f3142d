//! The shown text of a Multi-Link element.

ghost use Rattle.std.specs.Prelude.{◌≡◌, ◌++◌, List, ℕ, OnOk, codes};
ghost use Rattle.std.specs.Fmt.{decimal};
ghost use Rattle.std.specs.String.{string_bytes};
ghost use Rattle.wl_shown.specs.Parts.{joined_parts, more_parts};
ghost use Rattle.wl_shown.specs.MlText.{profile_control, profile_info, rest_parts, profile_text, change_control, change_info, change_text, other_text, basic_sub_text, reconf_sub_text, more_subs, subs_text, type_parts, common_basics, common_capabilities, common_info, reconf_info, subs_parts, other_parts, basic_text, reconf_text, ml_text};

use crate::show::{
    push_hex, push_number, put_address, put_flag, put_number, put_octet, put_octets, put_optional,
    put_word,
};
use std::alloc::Global;
use wl_elem::Memory;
use wl_mle::{Basic, BasicSub, Common, LinkChange, MultiLink, Profile, Reconf, ReconfSub};

/// Adds the control word of a Basic profile.
fn push_profile_control(out: &mut String, p: &Profile) -> Result<(), Memory>
    ensures { OnOk result (string_bytes out.new ≡ string_bytes out.old ++ (codes "sta(" ++ joined_parts (profile_control p.now))) }
{
    put_number(out, "sta(link=", u64::from(p.link.get()))?;
    put_flag(out, ",complete=", p.complete)?;
    put_flag(out, ",pair=", p.pair)?;
    put_flag(out, ",wide=", p.wide)?;
    put_number(out, ",spare=", u64::from(p.spare))
}

/// Adds STA Info of a Basic profile.
fn push_profile_info(alloc: Global, out: &mut String, p: &Profile) -> Result<(), Memory>
    ensures { OnOk result (string_bytes out.new ≡ string_bytes out.old ++ more_parts (profile_info p.now)) }
{
    put_address(alloc, out, ",mac=", p.mac)?;
    put_word(out, ",beacon=", p.beacon)?;
    put_optional(out, ",tsf=", p.tsf)?;
    put_word(out, ",dtim=", p.dtim)?;
    put_word(out, ",nstr=", p.nstr)?;
    put_octet(out, ",count=", p.count)
}

/// Adds what stands behind the fields of a profile, and its end.
fn push_rest(alloc: Global, out: &mut String, tail: &[u8], body: &[u8]) -> Result<(), Memory>
    ensures { OnOk result (string_bytes out.new ≡ string_bytes out.old ++ (more_parts (rest_parts tail.now body.now) ++ codes ")")) }
{
    put_octets(alloc, out, ",tail=", tail)?;
    put_octets(alloc, out, ",body=", body)?;
    out.push_str(")")?;
    Ok(())
}

/// Adds a Basic profile as `sta(..)`.
fn push_profile(alloc: Global, out: &mut String, p: &Profile) -> Result<(), Memory>
    ensures { OnOk result (string_bytes out.new ≡ string_bytes out.old ++ profile_text p.now) }
{
    push_profile_control(out, p)?;
    push_profile_info(alloc, out, p)?;
    push_rest(alloc, out, p.tail.as_slice(), p.body.as_slice())
}

/// Adds the control word of a Reconfiguration profile.
fn push_change_control(out: &mut String, c: &LinkChange) -> Result<(), Memory>
    ensures { OnOk result (string_bytes out.new ≡ string_bytes out.old ++ (codes "chg(" ++ joined_parts (change_control c.now))) }
{
    put_number(out, "chg(link=", u64::from(c.link.get()))?;
    put_flag(out, ",complete=", c.complete)?;
    put_number(out, ",op=", u64::from(c.op))?;
    put_flag(out, ",params=", c.params)?;
    put_number(out, ",spare=", u64::from(c.spare))
}

/// Adds a Reconfiguration profile as `chg(..)`.
fn push_change(alloc: Global, out: &mut String, c: &LinkChange) -> Result<(), Memory>
    ensures { OnOk result (string_bytes out.new ≡ string_bytes out.old ++ change_text c.now) }
{
    push_change_control(out, c)?;
    put_address(alloc, out, ",mac=", c.mac)?;
    put_word(out, ",timer=", c.timer)?;
    push_rest(alloc, out, c.tail.as_slice(), c.body.as_slice())
}

/// Adds a subelement that stays as octets, as `sID:` and its octets.
fn push_other(alloc: Global, out: &mut String, id: u8, body: &[u8]) -> Result<(), Memory>
    ensures { OnOk result (string_bytes out.new ≡ string_bytes out.old ++ other_text id body.now) }
{
    out.push_str("s")?;
    push_number(out, u64::from(id))?;
    out.push_str(":")?;
    push_hex(alloc, out, body)
}

/// Adds a subelement of a Basic element.
fn push_basic_sub(alloc: Global, out: &mut String, sub: &BasicSub) -> Result<(), Memory>
    ensures { OnOk result (string_bytes out.new ≡ string_bytes out.old ++ basic_sub_text sub.now) }
{
    match sub {
        BasicSub::Profile(p) => push_profile(alloc, out, p),
        BasicSub::Other { id, body } => push_other(alloc, out, *id, body.as_slice()),
    }
}

/// Adds a subelement of a Reconfiguration element.
fn push_reconf_sub(alloc: Global, out: &mut String, sub: &ReconfSub) -> Result<(), Memory>
    ensures { OnOk result (string_bytes out.new ≡ string_bytes out.old ++ reconf_sub_text sub.now) }
{
    match sub {
        ReconfSub::Change(c) => push_change(alloc, out, c),
        ReconfSub::Other { id, body } => push_other(alloc, out, *id, body.as_slice()),
    }
}

/// Adds further subelements of a Basic element, each behind a semicolon.
fn push_more_basic_subs(alloc: Global, out: &mut String, subs: &[BasicSub]) -> Result<(), Memory>
    ensures { OnOk result (string_bytes out.new ≡ string_bytes out.old ++ more_subs basic_sub_text subs.now) }
{
    'subs: for sub in subs {
        out.push_str(";")?;
        push_basic_sub(alloc, out, sub)?;
    }
    Ok(())
}

/// Adds the subelements of a Basic element, with semicolons between them.
fn push_basic_subs(alloc: Global, out: &mut String, subs: &[BasicSub]) -> Result<(), Memory>
    ensures { OnOk result (string_bytes out.new ≡ string_bytes out.old ++ subs_text basic_sub_text subs.now) }
{
    match subs {
        [first, more @ ..] => {
            push_basic_sub(alloc, out, first)?;
            push_more_basic_subs(alloc, out, more)
        }
        [] => Ok(()),
    }
}

/// Adds further subelements of a Reconfiguration element, each behind a semicolon.
fn push_more_reconf_subs(alloc: Global, out: &mut String, subs: &[ReconfSub]) -> Result<(), Memory>
    ensures { OnOk result (string_bytes out.new ≡ string_bytes out.old ++ more_subs reconf_sub_text subs.now) }
{
    'subs: for sub in subs {
        out.push_str(";")?;
        push_reconf_sub(alloc, out, sub)?;
    }
    Ok(())
}

/// Adds the subelements of a Reconfiguration element, with semicolons between them.
fn push_reconf_subs(alloc: Global, out: &mut String, subs: &[ReconfSub]) -> Result<(), Memory>
    ensures { OnOk result (string_bytes out.new ≡ string_bytes out.old ++ subs_text reconf_sub_text subs.now) }
{
    match subs {
        [first, more @ ..] => {
            push_reconf_sub(alloc, out, first)?;
            push_more_reconf_subs(alloc, out, more)
        }
        [] => Ok(()),
    }
}

/// Adds the type of an element, and the bits of its control word that no field names.
fn push_type(out: &mut String, name: &str, spare: u16) -> Result<(), Memory>
    ensures { OnOk result (string_bytes out.new ≡ string_bytes out.old ++ (codes "ml(" ++ joined_parts (type_parts name.now spare))) }
{
    out.push_str("ml(")?;
    out.push_str(name)?;
    put_number(out, ",spare=", u64::from(spare))
}

/// Adds the first fields of Common Info of a Basic element.
fn push_common_basics(alloc: Global, out: &mut String, c: &Common) -> Result<(), Memory>
    ensures { OnOk result (string_bytes out.new ≡ string_bytes out.old ++ more_parts (common_basics c.now)) }
{
    put_octets(alloc, out, ",mld=", &c.mld.octets())?;
    put_octet(out, ",link=", c.link)?;
    put_octet(out, ",count=", c.count)?;
    put_word(out, ",sync=", c.sync)
}

/// Adds the other fields of Common Info of a Basic element.
fn push_common_capabilities(out: &mut String, c: &Common) -> Result<(), Memory>
    ensures { OnOk result (string_bytes out.new ≡ string_bytes out.old ++ more_parts (common_capabilities c.now)) }
{
    put_word(out, ",eml=", c.eml)?;
    put_word(out, ",caps=", c.caps)?;
    put_octet(out, ",apid=", c.apid)?;
    put_word(out, ",ext=", c.ext)
}

/// Adds Common Info of a Basic element.
fn push_common(alloc: Global, out: &mut String, c: &Common) -> Result<(), Memory>
    ensures { OnOk result (string_bytes out.new ≡ string_bytes out.old ++ more_parts (common_info c.now)) }
{
    push_common_basics(alloc, out, c)?;
    push_common_capabilities(out, c)
}

/// Adds what stands behind the fields of Common Info of a Basic element, and its end.
fn push_basic_end(alloc: Global, out: &mut String, b: &Basic) -> Result<(), Memory>
    ensures { OnOk result (string_bytes out.new ≡ string_bytes out.old ++ (more_parts (subs_parts b.now.common.tail (subs_text basic_sub_text b.now.subs)) ++ codes ")")) }
{
    put_octets(alloc, out, ",tail=", b.common.tail.as_slice())?;
    out.push_str(",subs=[")?;
    push_basic_subs(alloc, out, b.subs.as_slice())?;
    out.push_str("])")?;
    Ok(())
}

/// Adds a Basic element.
fn push_basic(alloc: Global, out: &mut String, b: &Basic) -> Result<(), Memory>
    ensures { OnOk result (string_bytes out.new ≡ string_bytes out.old ++ basic_text b.now) }
{
    push_type(out, "basic", b.spare)?;
    push_common(alloc, out, &b.common)?;
    push_basic_end(alloc, out, b)
}

/// Adds Common Info of a Reconfiguration element.
fn push_reconf_info(alloc: Global, out: &mut String, r: &Reconf) -> Result<(), Memory>
    ensures { OnOk result (string_bytes out.new ≡ string_bytes out.old ++ more_parts (reconf_info r.now)) }
{
    put_address(alloc, out, ",mld=", r.mld)?;
    put_word(out, ",eml=", r.eml)?;
    put_word(out, ",caps=", r.caps)?;
    put_word(out, ",ext=", r.ext)
}

/// Adds what stands behind the fields of Common Info of a Reconfiguration element, and its end.
fn push_reconf_end(alloc: Global, out: &mut String, r: &Reconf) -> Result<(), Memory>
    ensures { OnOk result (string_bytes out.new ≡ string_bytes out.old ++ (more_parts (subs_parts r.now.tail (subs_text reconf_sub_text r.now.subs)) ++ codes ")")) }
{
    put_octets(alloc, out, ",tail=", r.tail.as_slice())?;
    out.push_str(",subs=[")?;
    push_reconf_subs(alloc, out, r.subs.as_slice())?;
    out.push_str("])")?;
    Ok(())
}

/// Adds a Reconfiguration element.
fn push_reconf(alloc: Global, out: &mut String, r: &Reconf) -> Result<(), Memory>
    ensures { OnOk result (string_bytes out.new ≡ string_bytes out.old ++ reconf_text r.now) }
{
    push_type(out, "reconf", r.spare)?;
    push_reconf_info(alloc, out, r)?;
    push_reconf_end(alloc, out, r)
}

/// Adds an element of another type.
fn push_other_type(alloc: Global, out: &mut String, control: u16, body: &[u8]) -> Result<(), Memory>
    ensures { OnOk result (string_bytes out.new ≡ string_bytes out.old ++ (codes "ml(" ++ joined_parts (other_parts control body.now) ++ codes ")")) }
{
    put_number(out, "ml(other,control=", u64::from(control))?;
    put_octets(alloc, out, ",body=", body)?;
    out.push_str(")")?;
    Ok(())
}

/// Adds a Multi-Link element as `ml(..)`, with all its fields and subelements.
pub fn push_ml(alloc: Global, out: &mut String, value: &MultiLink) -> Result<(), Memory>
    ensures { OnOk result (string_bytes out.new ≡ string_bytes out.old ++ ml_text value.now) }
{
    match value {
        MultiLink::Basic(b) => push_basic(alloc, out, b),
        MultiLink::Reconfiguration(r) => push_reconf(alloc, out, r),
        MultiLink::Other { control, body } => push_other_type(
            alloc,
            out,
            *control,
            body.as_slice(),
        ),
    }
}
