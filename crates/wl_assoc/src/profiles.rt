//! Reading the profiles of the Basic Multi-Link element of a frame.

ghost use Rattle.std.specs.Prelude.{◌≡◌, ◌≢◌, ◌↔◌, ◌<◌, ◌≤◌, ◌^◌, Ok, Err, IsTrue, IfOk, IfErr, IfSome, IsNone, length, take, drop, count_by, position};
ghost use Rattle.std.specs.List.{AllByRecursion};
ghost use Rattle.wl_elem.specs.Answers.{Answers, IfRefused};
ghost use Rattle.wl_elem.specs.Octets.{number};
ghost use Rattle.wl_mle.specs.declared.multi_link.MultiLink.TheVariants as elements;
ghost use Rattle.wl_mle.specs.MultiLink.{MlOf, MlRefused};
ghost use Rattle.wl_assoc.specs.Profiles.{is_basic, IsOnlyBasic, fixed_len, status_of, entry, ElementsAs, ProfileAs, ProfilesAs, EntriesAs};
ghost use Rattle.wl_assoc.specs.Reading.{IsRead, IsReadSub};

use crate::decode::elements_at;
use std::alloc::Global;
use wl_elem::{
    EXTENDED, Element, Elements, Fault, LinkId, MULTI_LINK, MacAddr, Why, first_u16, items_length,
};
use wl_inherit::expand;
use wl_mle::{Basic, BasicSub, MultiLink, Profile, decode_ml};

/// What a profile says of its link. Of a request the status is 0.
#[derive(Drop)]
pub struct LinkEntry {
    pub link: LinkId,
    pub mac: Option<MacAddr>,
    pub capability: u16,
    pub status: u16,
    pub elements: Elements,
}

/// Whether an element is a Basic Multi-Link element, by its identity and the type in its control word.
pub fn is_basic(element: &Element) -> bool
    ensures { result ≡ is_basic element.now }
{
    if !element.has_identity(EXTENDED, Some(MULTI_LINK)) {
        return false;
    }
    match element.body() {
        [control, _, ..] => control % 8 == 0,
        _ => false,
    }
}

/// How many Basic Multi-Link elements there are.
fn basics_in(elements: &[Element]) -> usize
    ensures { result ≡ count_by is_basic elements.now }
{
    elements.iter().filter(|element| is_basic(element)).count()
}

/// The index of the first.
fn first_basic(elements: &[Element]) -> Option<usize>
    ensures { result ≡ position is_basic elements.now }
{
    elements.iter().position(is_basic)
}

/// The one Basic Multi-Link element and its index. None where there is none or a second one.
fn only_basic(list: &Elements) -> Option<(usize, &Element)>
    ensures some { IfSome result (λ x. IsOnlyBasic list.now x.0 x.1.now) }
    ensures within { IfSome result (λ x. x.0 < length list.now) }
    ensures none { IsNone result → count_by is_basic list.now ≢ 1 }
{
    let elements = list.as_slice();
    if basics_in(elements) != 1 {
        return None;
    }
    let i = first_basic(elements)?;
    Some((i, &elements[i]))
}

/// The value of a Basic Multi-Link element.
fn basic_of(alloc: Global, element: &Element) -> Result<Basic, Fault>
    requires { IsTrue (is_basic element.now) }
    ensures read { IfOk result (λ b. MlOf (elements.Basic b) element.now.body) }
    ensures count { IfOk result (λ b. length b.subs < 2 ^ 32) }
    ensures subs { IfOk result (λ b. AllByRecursion IsReadSub b.subs) }
    ensures refused { IfErr result (λ fault. IfRefused fault (λ refusal. MlRefused element.now.body refusal)) }
{
    element.facts();
    items_length();
    match decode_ml(alloc, element)? {
        MultiLink::Basic(basic) => Ok(basic),
        _ => unreachable!(),
    }
}

/// How many octets the fixed fields of a profile's body take.
fn fixed_len(response: bool) -> usize
    ensures len { result ≡ fixed_len response }
    ensures short { result ≤ 4 }
{
    if response { 4 } else { 2 }
}

/// Capability and status of a profile's body, and what follows them. None where they aren't whole.
fn fixed_fields(response: bool, body: &[u8]) -> Option<(u16, u16, &[u8])>
    ensures capability { IfSome result (λ x. x.0 ≡ number (take 2 body.now)) }
    ensures status { IfSome result (λ x. x.1 ≡ status_of response body.now) }
    ensures rest { IfSome result (λ x. x.2.now ≡ drop (fixed_len response) body.now) }
    ensures none { IsNone result ↔ (length body.now < fixed_len response) }
{
    let (capability, rest) = first_u16(body)?;
    if !response {
        return Some((capability, 0, rest));
    }
    let (status, rest) = first_u16(rest)?;
    Some((capability, status, rest))
}

/// What a profile says of its link, within the frame of these elements.
fn entry_of(
    alloc: Global,
    response: bool,
    outer: &Elements,
    profile: &Profile,
) -> Result<LinkEntry, Fault>
    requires outer { length outer.now < 2 ^ 32 }
    requires profile { IsRead profile.now }
    ensures read { IfOk result (λ e. ProfileAs response outer.now profile.now (Ok e.elements)) }
    ensures entry { IfOk result (λ e. e ≡ entry response profile.now e.elements) }
    ensures refused { IfErr result (λ fault. IfRefused fault (λ refusal. ProfileAs response outer.now profile.now (Err refusal))) }
{
    let place = profile.body_place();
    let Some((capability, status, rest)) = fixed_fields(response, profile.body.as_slice()) else {
        return Err(Fault::at(place, Why::ProfileShort));
    };
    let own = elements_at(alloc, place + fixed_len(response), rest)?;
    let elements = elements_of(alloc, outer, profile.complete, own)?;
    Ok(LinkEntry {
        link: profile.link,
        mac: profile.mac,
        capability,
        status,
        elements,
    })
}

/// The elements of a profile, expanded where it is complete.
fn elements_of(
    alloc: Global,
    outer: &Elements,
    complete: bool,
    own: Elements,
) -> Result<Elements, Fault>
    requires outer { length outer.now < 2 ^ 32 }
    requires own { length own < 2 ^ 32 }
    ensures { Answers result (ElementsAs outer.now complete own) }
{
    if complete {
        return expand(alloc, outer, &own);
    }
    Ok(own)
}

/// What the profiles among some subelements say, within the frame of these elements.
fn entries_in(
    alloc: Global,
    response: bool,
    outer: &Elements,
    subs: &[BasicSub],
) -> Result<Vec<LinkEntry>, Fault>
    requires outer { length outer.now < 2 ^ 32 }
    requires count { length subs.now < 2 ^ 32 }
    requires subs { AllByRecursion IsReadSub subs.now }
    ensures read { IfOk result (λ entries. ProfilesAs response outer.now subs.now (Ok entries.items)) }
    ensures refused { IfErr result (λ fault. IfRefused fault (λ refusal. ProfilesAs response outer.now subs.now (Err refusal))) }
{
    let mut entries = Vec::new(alloc);
    let mut seen = [false; 15];
    'profiles: for i in 0..subs.len() {
        let BasicSub::Profile(profile) = &subs[i] else {
            continue;
        };
        let link = profile.link.get() as usize;
        if seen[link] {
            return Err(Fault::at(0, Why::RepeatedLink).in_sub(i));
        }
        seen[link] = true;
        match entry_of(alloc, response, outer, profile) {
            Ok(entry) => entries.push(entry)?,
            Err(fault) => return Err(fault.in_sub(i)),
        }
    }
    Ok(entries)
}

/// What the profiles of the frame with these elements say.
pub fn entries_of(alloc: Global, response: bool, list: &Elements) -> Result<Vec<LinkEntry>, Fault>
    requires { length list.now < 2 ^ 32 }
    ensures read { IfOk result (λ entries. EntriesAs response list.now (Ok entries.items)) }
    ensures refused { IfErr result (λ fault. IfRefused fault (λ refusal. EntriesAs response list.now (Err refusal))) }
{
    let Some((i, element)) = only_basic(list) else {
        return Err(Fault::at(0, Why::NoMultiLink));
    };
    let basic = match basic_of(alloc, element) {
        Ok(basic) => basic,
        Err(fault) => return Err(fault.in_element(i)),
    };
    match entries_in(alloc, response, list, basic.subs.as_slice()) {
        Ok(entries) => Ok(entries),
        Err(fault) => Err(fault.in_element(i)),
    }
}
