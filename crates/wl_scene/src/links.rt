//! Reading the links.

ghost use Rattle.std.specs.Prelude.{◌≡◌, codes, IfSome, IfOk};
ghost use Rattle.std.specs.List.{AllByRecursion};
ghost use Rattle.serde_json.specs.View.{view, items_view};
ghost use Rattle.wl_elem.specs.Links.{link_limit};
ghost use Rattle.wl_history.specs.Ends.{address_on as address_of_end};
ghost use Rattle.wl_scene.specs.Answering.{Gives};
ghost use Rattle.wl_scene.specs.Members.{is_among, below, number_at, each_of};
ghost use Rattle.wl_scene.specs.Head.{link_of, all_above as are_all_above, ascend as do_ascend, addresses_of, all_apart, are_links as may_be_links, links_at};
ghost use Rattle.wl_scene.specs.Sound.{IsSoundLink, AreSoundLinks};

use crate::fault::Stop;
use crate::member::{address, has_only, list, whole};
use serde_json::Value;
use std::alloc::Global;
use wl_elem::{EndId, LinkId, MacAddr};
use wl_history::{LinkStart, LinkStarts};

/// A number below 15.
fn id_of(n: u64) -> Option<LinkId>
    ensures { result ≡ below link_limit n }
{
    match u8::try_from(n) {
        Ok(n) => LinkId::new(n),
        Err(_) => None,
    }
}

/// The member `id`.
fn id(value: &Value) -> Option<LinkId>
    ensures { result ≡ number_at (codes "id") link_limit (view value.now) }
{
    match whole(value, "id") {
        Some(n) => id_of(n),
        None => None,
    }
}

/// A link.
fn link(value: &Value) -> Option<LinkStart>
    ensures read { result ≡ link_of (view value.now) }
    ensures sound { IfSome result IsSoundLink }
{
    if !has_only(value, &["id", "ap", "sta"]) {
        return None;
    }
    let id = id(value)?;
    let ap = address(value, "ap")?;
    let sta = address(value, "sta")?;
    Some(LinkStart { id, ap, sta })
}

/// The links of a list.
fn links_of(alloc: Global, values: &[Value]) -> Result<LinkStarts, Stop>
    ensures read { Gives result (each_of link_of (items_view values.now)) }
    ensures sound { IfOk result (AllByRecursion IsSoundLink) }
{
    let mut links = LinkStarts::new(alloc);
    'links: for value in values {
        let link = match link(value) {
            Some(link) => link,
            None => return Err(Stop::Wrong),
        };
        match links.push(link) {
            Ok(()) => {}
            Err(_) => return Err(Stop::NoMemory),
        }
    }
    Ok(links)
}

/// Whether the IDs of links are all above this one.
fn all_above(id: LinkId, links: &[LinkStart]) -> bool
    ensures { result ≡ are_all_above id links.now }
{
    match links {
        [] => true,
        [first, rest @ ..] => id.get() < first.id.get() && all_above(id, rest),
    }
}

/// Whether each link's ID is below those of the links behind it.
fn ascend(links: &[LinkStart]) -> bool
    ensures { result ≡ do_ascend links.now }
{
    match links {
        [] => true,
        [first, rest @ ..] => all_above(first.id, rest) && ascend(rest),
    }
}

/// The address of an end on a link.
fn address_on(link: &LinkStart, end: EndId) -> MacAddr
    ensures { result ≡ address_of_end link.now end }
{
    match end {
        EndId::Ap => link.ap,
        EndId::Sta => link.sta,
    }
}

/// Whether an end has this address on one of these links.
fn has_address(address: MacAddr, end: EndId, links: &[LinkStart]) -> bool
    ensures { result ≡ is_among address (addresses_of end links.now) }
{
    match links {
        [] => false,
        [first, rest @ ..] => {
            address == address_on(first, end) || has_address(address, end, rest)
        }
    }
}

/// Whether an end has no address on two of these links.
fn are_apart(end: EndId, links: &[LinkStart]) -> bool
    ensures { result ≡ all_apart (addresses_of end links.now) }
{
    match links {
        [] => true,
        [first, rest @ ..] => {
            !has_address(address_on(first, end), end, rest) && are_apart(end, rest)
        }
    }
}

/// Whether these are 1 to 4 links whose IDs ascend, no two addresses of an end the same.
fn are_links(links: &[LinkStart]) -> bool
    ensures { result ≡ may_be_links links.now }
{
    !links.is_empty()
        && links.len() <= 4
        && ascend(links)
        && are_apart(EndId::Ap, links)
        && are_apart(EndId::Sta, links)
}

/// The member `links`.
pub fn links(alloc: Global, value: &Value) -> Result<LinkStarts, Stop>
    ensures read { Gives result (links_at (view value.now)) }
    ensures sound { IfOk result AreSoundLinks }
{
    let values = match list(value, "links") {
        Some(values) => values,
        None => return Err(Stop::Wrong),
    };
    let links = match links_of(alloc, values) {
        Ok(links) => links,
        Err(stop) => return Err(stop),
    };
    if !are_links(links.as_slice()) {
        return Err(Stop::Wrong);
    }
    Ok(links)
}
