//! What the ends accept and deny.

ghost use Rattle.std.specs.Prelude.{◌≡◌, ◌∷◌, [], true, is_some, IfSome, option_and_then};
ghost use Rattle.serde_json.specs.View.{view, items_view};
ghost use Rattle.wl_history.specs.Ends.{link_at, links_in};
ghost use Rattle.wl_scene.specs.Members.{each_of};
ghost use Rattle.wl_scene.specs.Head.{id_in, set_of as set_in, accept_at, denier_of, denials_if, denials_at};
ghost use Rattle.wl_scene.specs.Sound.{AreLinksOf};

use crate::field::{end_of, link_of};
use serde_json::Value;
use wl_elem::{EndId, LinkId, LinkSet};
use wl_history::LinkStart;

/// Which ends deny each mapping that they are asked for.
#[derive(Clone, Copy, Debug, PartialEq, Eq)]
pub struct Denials {
    /// Whether the AP MLD does.
    pub ap: bool,
    /// Whether the station MLD does.
    pub sta: bool,
}

/// No links.
pub fn no_links() -> LinkSet
    ensures { result ≡ 0 }
{
    match LinkSet::from_bits(0) {
        Some(set) => set,
        None => unreachable!(),
    }
}

/// The set of these links.
fn all_of(links: &[LinkStart]) -> LinkSet
    ensures value { result ≡ links_in 0 links.now }
    ensures among { AreLinksOf links.now result }
{
    let mut set = no_links();
    'links: for link in links {
        set = set.with(link.id);
    }
    set
}

/// The ID that a value is, of one of these links.
fn id(links: &[LinkStart], value: &Value) -> Option<LinkId>
    ensures value { result ≡ id_in links.now (view value.now) }
    ensures known { IfSome result (λ id. is_some (link_at id links.now) ≡ true) }
{
    match value.as_u64() {
        Some(n) => link_of(links, n),
        None => None,
    }
}

/// The set of the links of a list of IDs. None where one isn't the ID of one of these links, or isn't
/// above the one before it.
fn set_of(links: &[LinkStart], values: &[Value]) -> Option<LinkSet>
    ensures value { result ≡ set_in links.now (items_view values.now) }
    ensures among { IfSome result (AreLinksOf links.now) }
{
    let mut set = no_links();
    let mut low: u8 = 0;
    'ids: for value in values {
        let id = id(links, value)?;
        if id.get() < low {
            return None;
        }
        low = id.get() + 1;
        set = set.with(id);
    }
    Some(set)
}

/// The links that are accepted, by the member `accept`; all where it is left out. None where it is wrong.
pub fn accept(links: &[LinkStart], value: &Value) -> Option<LinkSet>
    ensures value { result ≡ accept_at links.now (view value.now) }
    ensures among { IfSome result (AreLinksOf links.now) }
{
    match value.get("accept") {
        Some(member) => match member.as_array() {
            Some(list) => set_of(links, list.as_slice()),
            None => None,
        },
        None => Some(all_of(links)),
    }
}

/// The end that an element of the member `deny` names.
fn denier(value: &Value) -> Option<EndId>
    ensures { result ≡ denier_of (view value.now) }
{
    match value.as_str() {
        Some(name) => end_of(name),
        None => None,
    }
}

/// What both ends deny, where one of them is named.
fn with_one(end: EndId) -> Denials
    ensures { Some result ≡ denials_if (end ∷ []) }
{
    match end {
        EndId::Ap => Denials {
            ap: true,
            sta: false,
        },
        EndId::Sta => Denials {
            ap: false,
            sta: true,
        },
    }
}

/// What both ends deny, where both are named. None where it is one end twice.
fn with_two(a: EndId, b: EndId) -> Option<Denials>
    ensures { result ≡ denials_if (a ∷ b ∷ []) }
{
    match (a, b) {
        (EndId::Ap, EndId::Sta) | (EndId::Sta, EndId::Ap) => Some(Denials {
            ap: true,
            sta: true,
        }),
        _ => None,
    }
}

/// What both ends deny, by a list of ends. None where an element is wrong or an end is named twice.
fn denials_of(values: &[Value]) -> Option<Denials>
    ensures { result ≡ option_and_then denials_if (each_of denier_of (items_view values.now)) }
{
    match values {
        [] => Some(Denials {
            ap: false,
            sta: false,
        }),
        [one] => {
            let one = denier(one)?;
            Some(with_one(one))
        }
        [one, other] => {
            let one = denier(one)?;
            let other = denier(other)?;
            with_two(one, other)
        }
        [_, _, _, ..] => None,
    }
}

/// What both ends deny, by the member `deny`, which may be left out.
pub fn read_denials(value: &Value) -> Option<Denials>
    ensures { result ≡ denials_at (view value.now) }
{
    match value.get("deny") {
        Some(member) => match member.as_array() {
            Some(list) => denials_of(list.as_slice()),
            None => None,
        },
        None => denials_of(&[]),
    }
}
