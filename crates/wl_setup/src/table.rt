//! Tables with an entry for each link, and what both ends do with them.

ghost use Rattle.std.specs.Prelude.{◌≡◌, ◌<◌, None, if◌then◌else◌};
ghost use Rattle.wl_elem.specs.Links.{link_limit, has_link, set_with};
ghost use Rattle.wl_setup.specs.Messages.{is_address, addresses_on, asked_statuses, links_granted};
ghost use Rattle.wl_setup.specs.Status.{unspecified_failure};
ghost use Rattle.wl_setup.specs.Table.{is_named, links_that};

use crate::status::{UNSPECIFIED_FAILURE, is_success};
use wl_elem::{LinkId, LinkSet, MacAddr};

/// The addresses of an end, by link ID.
pub(crate) type Addresses = [Option<MacAddr>; 15];

/// The statuses of a reply, by link ID.
pub(crate) type Statuses = [Option<u16>; 15];

/// No links.
fn no_links() -> LinkSet
    ensures { result ≡ 0 }
{
    match LinkSet::from_bits(0) {
        Some(set) => set,
        None => unreachable!(),
    }
}

/// Whether the link of this ID is in a set.
pub(crate) fn has(set: LinkSet, id: u8) -> bool
    requires { id < link_limit }
    ensures { result ≡ has_link set id }
{
    match LinkId::new(id) {
        Some(link) => set.has(link),
        None => unreachable!(),
    }
}

/// A set with the link of this ID in it, where that passes, and else the same set.
fn with_if(passes: bool, set: LinkSet, id: u8) -> LinkSet
    requires { id < link_limit }
    ensures { result ≡ (if passes then set_with set id else set) }
{
    match LinkId::new(id) {
        Some(link) if passes => set.with(link),
        _ => set,
    }
}

/// The links that a table of addresses names.
#[tactic(auto, unfolding(crate::specs::Table::links_that))]
pub(crate) fn links_named(macs: &Addresses) -> LinkSet
    ensures { result ≡ links_that (is_named macs.now) }
{
    let mut links = no_links();
    'links: for id in 0..15_u8 {
        links = with_if(macs[usize::from(id)].is_some(), links, id);
    }
    links
}

/// The links that a reply sets up: those that were asked and succeed.
#[tactic(auto, unfolding(crate::specs::Table::links_that))]
pub(crate) fn links_granted(macs: &Addresses, status: &Statuses) -> LinkSet
    ensures { result ≡ links_granted macs.now status.now }
{
    let mut links = no_links();
    'links: for id in 0..15_u8 {
        let place = usize::from(id);
        links = with_if(
            macs[place].is_some() && is_success(status[place]),
            links,
            id,
        );
    }
    links
}

/// The address, where it passes.
fn address_if(passes: bool, address: Option<MacAddr>) -> Option<MacAddr>
    ensures { result ≡ (if passes then address else None) }
{
    if passes { address } else { None }
}

/// The addresses on the links of a set alone.
#[tactic(auto, using(crate::proofs::Tables::filled_more, crate::proofs::Tables::filled_all))]
pub(crate) fn addresses_on(macs: &Addresses, links: LinkSet) -> Addresses
    ensures { result ≡ addresses_on macs.now links }
{
    let mut kept = [None; 15];
    'links: for id in 0..15_u8 {
        let place = usize::from(id);
        kept[place] = address_if(has(links, id), macs[place]);
    }
    kept
}

/// For each asked link the status that it is refused for no reason of its own.
#[tactic(auto, using(crate::proofs::Tables::filled_more, crate::proofs::Tables::filled_all))]
pub(crate) fn refusals(macs: &Addresses) -> Statuses
    ensures { result ≡ asked_statuses macs.now (λ link. unspecified_failure) }
{
    let mut status = [None; 15];
    'links: for id in 0..15_u8 {
        let place = usize::from(id);
        status[place] = macs[place].map(|_mac| UNSPECIFIED_FAILURE);
    }
    status
}

/// Whether an address is there, and is this one.
pub(crate) fn is_address(address: &Option<MacAddr>, other: &Option<MacAddr>) -> bool
    ensures { result ≡ is_address address.now other.now }
{
    match (address, other) {
        (Some(address), Some(other)) => address == other,
        _ => false,
    }
}
