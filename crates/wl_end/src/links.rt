//! The links of an end, and the addresses there.

ghost use Rattle.std.specs.Prelude.{◌≡◌, ◌<◌, ℕ, true, is_some, length};
ghost use Rattle.wl_elem.specs.Links.{link_limit, has_link};
ghost use Rattle.wl_history.specs.Ends.{mld_of, address_on, is_link, link_at, links_begun, links_in, is_powered, own_way, has_some, is_mapped, why_kept};

use wl_elem::{Direction, EndId, Lane, LinkId, LinkSet, MacAddr};
use wl_history::{EndStart, KeptWhy, LinkStart, Setup};

/// The link of this ID. None exactly where there is none.
pub(crate) fn link_at(links: &[LinkStart], id: LinkId) -> Option<LinkStart>
    ensures { result ≡ link_at id links.now }
{
    'links: for link in links {
        if link.id.get() == id.get() {
            return Some(*link);
        }
    }
    None
}

/// The set of these links.
fn set_of(links: &[LinkStart]) -> LinkSet
    ensures value { result ≡ links_in 0 links.now }
    ensures has { (k : ℕ) → k < link_limit → has_link result k ≡ is_some (link_at k links.now) }
{
    let mut set = no_links();
    'links: for link in links {
        set = set.with(link.id);
    }
    set
}

/// No links.
fn no_links() -> LinkSet
    ensures { result ≡ 0 }
{
    match LinkSet::from_bits(0) {
        Some(set) => set,
        None => unreachable!(),
    }
}

/// The links that are set up at the start.
pub(crate) fn links_set_up(start: &EndStart) -> LinkSet
    ensures value { result ≡ links_begun start.now }
    ensures known { (k : ℕ) → k < link_limit → has_link result k ≡ true → is_link start.now k ≡ true }
{
    if start.associated {
        set_of(start.links.as_slice())
    } else {
        no_links()
    }
}

/// The address of an end on a link.
pub(crate) fn address_on(link: &LinkStart, end: EndId) -> MacAddr
    ensures value { result ≡ address_on link.now end }
    ensures six { length result ≡ 6 }
{
    match end {
        EndId::Ap => checked(&link.ap),
        EndId::Sta => checked(&link.sta),
    }
}

/// The MLD address of an end.
pub(crate) fn mld_of(start: &EndStart, end: EndId) -> MacAddr
    ensures value { result ≡ mld_of start.now end }
    ensures six { length result ≡ 6 }
{
    match end {
        EndId::Ap => checked(&start.ap),
        EndId::Sta => checked(&start.sta),
    }
}

/// The same address, which has six octets.
fn checked(address: &MacAddr) -> MacAddr
    ensures value { result ≡ address.now }
    ensures six { length result ≡ 6 }
{
    MacAddr::new(address.octets())
}

/// Whether the radio of a link is on.
pub(crate) fn is_powered(setup: &Setup, link: LinkId) -> bool
    ensures { result ≡ is_powered setup.now link }
{
    setup.radios[usize::from(link.get())]
}

/// The direction in which an end sends.
fn own_way(end: EndId) -> Direction
    ensures { result ≡ own_way end }
{
    match end {
        EndId::Ap => Direction::Down,
        EndId::Sta => Direction::Up,
    }
}

/// Whether some TID has the link in a direction.
fn has_some(d: Direction, setup: &Setup, link: LinkId) -> bool
    ensures { result ≡ has_some d setup.now link }
{
    let mapping = setup.maps.agreed(d);
    mapping.sets.iter().any(|set| set.has(link))
}

/// Whether an end's agreed mapping has the link for a lane: for data that of its own direction for the
/// TID, for management either for some TID.
fn is_mapped(end: EndId, setup: &Setup, lane: &Lane, link: LinkId) -> bool
    ensures { result ≡ is_mapped end setup.now lane.now link }
{
    match lane {
        Lane::Tid(tid) => {
            let mapping = setup.maps.agreed(own_way(end));
            mapping.sets[usize::from(tid.get())].has(link)
        }
        Lane::Management => {
            has_some(Direction::Down, setup, link) || has_some(Direction::Up, setup, link)
        }
    }
}

/// Why an end may not send a frame of a lane over a link. None exactly where it may.
pub(crate) fn why_kept(end: EndId, setup: &Setup, lane: &Lane, link: LinkId) -> Option<KeptWhy>
    ensures { result ≡ why_kept end setup.now lane.now link }
{
    if !setup.links.has(link) {
        return Some(KeptWhy::NotSetUp);
    }
    if !is_powered(setup, link) {
        return Some(KeptWhy::Unpowered);
    }
    if !is_mapped(end, setup, lane, link) {
        return Some(KeptWhy::Unmapped);
    }
    None
}
