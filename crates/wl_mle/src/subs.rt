//! Lists of subelements.

ghost use Rattle.std.specs.Prelude.{◌≡◌, ◌↔◌, ◌+◌, ◌≤◌, ◌<◌, ◌^◌, ◌≢◌, ℕ, Bool, List as Values, IsTrue, IsSome, IfSome, OnOk, length, drop, map};
ghost use Rattle.std.specs.List.{AllByRecursion};
ghost use Rattle.wl_elem.specs.declared.kind.ListKind.TheVariants.{Subelements};
ghost use Rattle.wl_elem.specs.declared.item.Item.{Item};
ghost use Rattle.wl_elem.specs.Element.{body_limit};
ghost use Rattle.wl_elem.specs.Items.{AddsItem, written_len, items_len};
ghost use Rattle.wl_mle.specs.Fields.{IsShort, info_text, word_of};
ghost use Rattle.wl_mle.specs.MultiLink.{IsOtherId, subelement, profile_fault, sub_fault, subs_refusal};
ghost use Rattle.wl_mle.specs.Reading.{made_behind, Reads};
ghost use Rattle.wl_mle.specs.Writing.{AddsSubs};

use crate::info::{Info, StaInfo, control_of, info_of, put_info};
use std::alloc::Global;
use wl_elem::{Bytes, Fault, Item, LinkId, List, ListKind, Memory, Why, put_item};

/// A subelement of a Basic element, or one of a Reconfiguration element.
pub trait Subelement: Drop {
    // the slots of a profile's fields behind its control word
    ghost slots: { ℕ → Values (Bool × ℕ) };

    // the item that is written, the subelement that is read, and what has octets
    ghost item: { Self → Item };

    ghost at: { Item → Self };

    ghost IsSub: { Self → Type 0 };

    /// Reads a subelement.
    fn read(alloc: Global, s: &Item) -> Result<Self, Fault>
        ensures { Reads (sub_fault slots s.now) (at s.now) result };

    /// Whether the subelement has octets.
    fn fits(&self) -> bool
        ensures { IsTrue result ↔ IsSub self.now };

    /// What is left of the room behind the subelement. None where there isn't room for it.
    fn room_behind(&self, room: usize) -> Option<usize>
        requires is { IsSub self.now }
        requires room { room ≤ body_limit }
        ensures some { IsSome result ↔ (written_len (length (item self.now).octets) ≤ room) }
        ensures left { IfSome result (λ left. written_len (length (item self.now).octets) + left ≡ room) };

    /// Adds the subelement.
    fn put(&self, alloc: Global, out: &mut Bytes) -> Result<(), Memory>
        requires { IsSub self.now }
        ensures { OnOk result (AddsItem Subelements (item self.now) out.old out.new) };
}

/// Reads the subelements in order, up to the first that is refused.
pub fn read_subs<S: Subelement>(alloc: Global, list: &[Item]) -> Result<List<S>, Fault>
    requires { length list.now < 2 ^ 32 }
    ensures { Reads (subs_refusal S.slots 0 list.now) (map S.at list.now) result }
{
    let mut subs = List::new(alloc);
    'subs: for i in 0..list.len() {
        match S::read(alloc, &list[i]) {
            Ok(sub) => subs.push(sub)?,
            Err(fault) => return Err(fault.in_sub(i)),
        }
    }
    Ok(subs)
}

/// Whether each subelement has octets.
pub fn subs_fit<S: Subelement>(subs: &[S]) -> bool
    ensures { IsTrue result ↔ AllByRecursion S.IsSub subs.now }
{
    'subs: for i in 0..subs.len() {
        if !subs[i].fits() {
            return false;
        }
    }
    true
}

/// Whether there is room for the subelements.
pub fn subs_within<S: Subelement>(subs: &[S], room: usize) -> bool
    requires are { AllByRecursion S.IsSub subs.now }
    requires room { room ≤ body_limit }
    ensures { IsTrue result ↔ (items_len (map S.item subs.now) ≤ room) }
{
    let mut left = room;
    'subs: for i in 0..subs.len() {
        left = match subs[i].room_behind(left) {
            Some(left) => left,
            None => return false,
        };
    }
    true
}

/// Adds the subelements in order.
pub fn put_subs<S: Subelement>(alloc: Global, out: &mut Bytes, subs: &[S]) -> Result<(), Memory>
    requires { AllByRecursion S.IsSub subs.now }
    ensures { OnOk result (AddsSubs (map S.item subs.now) out.old out.new) }
{
    'subs: for i in 0..subs.len() {
        subs[i].put(alloc, out)?;
    }
    Ok(())
}

/// Reads the octets of a profile.
pub fn read_profile<P: StaInfo>(alloc: Global, octets: &[u8]) -> Result<P, Fault>
    ensures { Reads (profile_fault P.slots octets.now) (made_behind P.slots P.made (word_of octets.now) (drop 2 octets.now)) result }
{
    if octets.len() < 3 {
        return Err(Fault::at(0, Why::InfoShort));
    }
    let (control, rest) = control_of(octets);
    let Some(link) = LinkId::new((control % 16) as u8) else {
        return Err(Fault::at(0, Why::ReservedLink));
    };
    let (area, body) = info_of(P::need(control), Why::InfoShort, Why::InfoLong, rest)?;
    Ok(P::of_area(alloc, control, link, area, body)?)
}

/// Adds a profile with this body.
pub fn put_profile<P: Info>(
    alloc: Global,
    out: &mut Bytes,
    profile: &P,
    body: &Bytes,
) -> Result<(), Memory>
    requires is { P.IsInfo profile.now }
    requires short { IsShort (P.fields profile.now) (P.tail profile.now) }
    ensures { OnOk result (AddsItem Subelements (subelement 0 (info_text (P.word profile.now) (P.fields profile.now) (P.tail profile.now) body.now)) out.old out.new) }
{
    let mut octets = Bytes::new(alloc);
    put_info(&mut octets, profile)?;
    octets.extend(body.as_slice())?;
    put_item(out, ListKind::Subelements, 0, octets.as_slice())
}

/// Whether the ID is one of a subelement that isn't a profile.
pub fn is_other_id(id: u8) -> bool
    ensures { IsTrue result ↔ IsOtherId id }
{
    id != 0 && id != ListKind::Subelements.fragment_id()
}

/// What is left of the room behind a subelement of `head` and `len` octets.
#[tactic(auto, using(crate::proofs::Lengths::written_short, crate::proofs::Lengths::written_long))]
pub fn room_behind(head: usize, len: usize, room: usize) -> Option<usize>
    requires head { head ≤ 300 }
    requires room { room ≤ body_limit }
    ensures some { IsSome result ↔ (written_len (head + len) ≤ room) }
    ensures left { IfSome result (λ left. written_len (head + len) + left ≡ room) }
{
    if len > room {
        return None;
    }
    let octets = head + len;
    let written = if octets <= 255 {
        octets + 2
    } else {
        octets + 2 * ((octets + 254) / 255)
    };
    if written > room {
        return None;
    }
    Some(room - written)
}
