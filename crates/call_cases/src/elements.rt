//! Calls on lists of elements, and on links and TIDs.

ghost use Rattle.std.specs.Prelude.{◌<◌, ◌^◌, length};

use crate::octets::{octets_of, octets_text};
use crate::words::{
    address_of, elements_of, fault_text, identity_of, link_of, list_octets, name_of, number_of,
    number_or_none, push_answer, text, yes,
};
use std::alloc::Global;
use wl_elem::{
    Bytes, Element, Elements, Item, LinkId, LinkSet, ListKind, Stop, Tid, cut_items,
    decode_elements, encoded_len, find, put_item,
};

/// The answer of a call on elements. None where there is none of this name, or a word can't be read.
pub fn answer(alloc: Global, name: &str, words: &[&str]) -> Option<String> {
    match name {
        "encode_elements" => encoded(alloc, words),
        "decode_elements" => decoded(alloc, words),
        "element_at" => element_at(alloc, words),
        "find" => found(alloc, words),
        "element" => made(alloc, words),
        "items" => items(alloc, words),
        "put_items" => put(alloc, words),
        _ => link_answer(alloc, name, words),
    }
}

/// The answer of a call on links, TIDs and addresses.
fn link_answer(alloc: Global, name: &str, words: &[&str]) -> Option<String> {
    match name {
        "link" => link(alloc, words),
        "tid" => tid(alloc, words),
        "link_set" => link_set(alloc, words),
        "mac" => mac(alloc, words),
        _ => None,
    }
}

/// `encode_elements ELEMENT..`: how many octets the list is written in, and these octets.
fn encoded(alloc: Global, words: &[&str]) -> Option<String> {
    let list = elements_of(alloc, words)?;
    let octets = list_octets(alloc, &list)?;
    let octets = octets_text(alloc, octets.as_slice())?;
    format!(in alloc; "{} {octets}", encoded_len(&list)).ok()
}

/// An element as its identity, `:` and its body.
fn element_text(alloc: Global, element: &Element) -> Option<String> {
    let id = element.id();
    let body = octets_text(alloc, element.body())?;
    match element.ext() {
        Some(ext) => format!(in alloc; "{id}.{ext}:{body}").ok(),
        None => format!(in alloc; "{id}:{body}").ok(),
    }
}

/// A list as how many elements it has, each of them, and its octets.
fn list_text(alloc: Global, list: &Elements) -> Option<String>
    requires { length list.now < 2 ^ 32 }
{
    let octets = list_octets(alloc, list)?;
    let octets = octets_text(alloc, octets.as_slice())?;
    let mut out = format!(in alloc; "{} [", list.len()).ok()?;
    for element in list.as_slice() {
        push_answer(&mut out, element_text(alloc, element))?;
    }
    write!(out, " ] {octets}").ok()?;
    Some(out)
}

/// `decode_elements OCTETS`: the list that is read, and its octets when it is written again; or the
/// refusal.
fn decoded(alloc: Global, words: &[&str]) -> Option<String> {
    let [octets] = words else {
        return None;
    };
    let octets = octets_of(alloc, octets)?;
    match decode_elements(alloc, octets.as_slice()) {
        Ok(list) => list_text(alloc, &list),
        Err(fault) => fault_text(alloc, fault),
    }
}

/// `element_at INDEX OCTETS`: the element at an index of the list of these octets, or `none`.
fn element_at(alloc: Global, words: &[&str]) -> Option<String> {
    let [index, octets] = words else {
        return None;
    };
    let index = number_of::<u32>(index)?;
    let octets = octets_of(alloc, octets)?;
    let list = decode_elements(alloc, octets.as_slice()).ok()?;
    match list.get(index) {
        Some(element) => element_text(alloc, element),
        None => text(alloc, "none"),
    }
}

/// `find IDENTITY FROM OCTETS`: the first index from FROM on of an element of this identity, or
/// `none`.
fn found(alloc: Global, words: &[&str]) -> Option<String> {
    let [identity, from, octets] = words else {
        return None;
    };
    let (id, ext) = identity_of(identity)?;
    let from = number_of::<u32>(from)?;
    let octets = octets_of(alloc, octets)?;
    let list = decode_elements(alloc, octets.as_slice()).ok()?;
    number_or_none(alloc, find(&list, id, ext, from).map(u64::from))
}

/// `element IDENTITY`: whether an element may have this identity.
fn made(alloc: Global, words: &[&str]) -> Option<String> {
    let [identity] = words else {
        return None;
    };
    let (id, ext) = identity_of(identity)?;
    let element = Element::new(id, ext, Bytes::new(alloc));
    text(alloc, yes(element.is_some()))
}

/// The kind of a list.
fn kind_of(word: &str) -> Option<ListKind> {
    match word {
        "elements" => Some(ListKind::Elements),
        "subelements" => Some(ListKind::Subelements),
        _ => None,
    }
}

/// Items, each as its ID, `:` and its octets.
fn items_text(alloc: Global, items: &[Item]) -> Option<String> {
    let mut out = String::from_str(alloc, "[").ok()?;
    for item in items {
        let octets = octets_text(alloc, item.octets.as_slice())?;
        write!(out, " {}:{octets}", item.id).ok()?;
    }
    out.push_str(" ]").ok()?;
    Some(out)
}

/// `items KIND OCTETS`: the items that the octets are cut into, or why and where they aren't.
fn items(alloc: Global, words: &[&str]) -> Option<String> {
    let [kind, octets] = words else {
        return None;
    };
    let kind = kind_of(kind)?;
    let octets = octets_of(alloc, octets)?;
    match cut_items(alloc, kind, octets.as_slice()) {
        Ok(items) => items_text(alloc, items.as_slice()),
        Err(Stop::CutOff { left, why }) => { format!(in alloc; "left={left} {}", why.name()).ok() }
        Err(Stop::Memory) => None,
    }
}

/// Adds the item of a word.
fn put_word(alloc: Global, out: &mut Bytes, kind: ListKind, word: &str) -> Option<()> {
    let (id, octets) = word.split_once(':')?;
    let id = number_of::<u8>(id)?;
    let octets = octets_of(alloc, octets)?;
    if id == kind.fragment_id() || (kind.is_extended(id) && octets.is_empty()) {
        return None;
    }
    put_item(out, kind, id, octets.as_slice()).ok()
}

/// `put_items KIND ITEM..`: the octets of the items.
fn put(alloc: Global, words: &[&str]) -> Option<String> {
    let (kind, items) = words.split_first()?;
    let kind = kind_of(kind)?;
    let mut out = Bytes::new(alloc);
    for item in items {
        put_word(alloc, &mut out, kind, item)?;
    }
    octets_text(alloc, out.as_slice())
}

/// `link N`: whether there is a link of this ID.
fn link(alloc: Global, words: &[&str]) -> Option<String> {
    let [n] = words else {
        return None;
    };
    text(alloc, yes(LinkId::new(number_of::<u8>(n)?).is_some()))
}

/// `tid N`: whether there is a TID of this number.
fn tid(alloc: Global, words: &[&str]) -> Option<String> {
    let [n] = words else {
        return None;
    };
    text(alloc, yes(Tid::new(number_of::<u8>(n)?).is_some()))
}

/// `mac OCTETS`: the octets of the address.
fn mac(alloc: Global, words: &[&str]) -> Option<String> {
    let [octets] = words else {
        return None;
    };
    octets_text(alloc, &address_of(alloc, octets)?.octets())
}

/// A set's bitmap.
fn bits_text(alloc: Global, set: LinkSet) -> Option<String> {
    format!(in alloc; "{}", set.bits()).ok()
}

/// What a set of links answers to one word; `with` and `without` change it.
fn set_answer(alloc: Global, set: &mut LinkSet, word: &str) -> Option<String> {
    match name_of(word) {
        ("with", link) => {
            *set = set.with(link_of(link)?);
            bits_text(alloc, *set)
        }
        ("without", link) => {
            *set = set.without(link_of(link)?);
            bits_text(alloc, *set)
        }
        ("has", link) => text(alloc, yes(set.has(link_of(link)?))),
        ("within", bits) => {
            let other = LinkSet::from_bits(number_of::<u16>(bits)?)?;
            text(alloc, yes(set.within(other)))
        }
        ("count", "") => format!(in alloc; "{}", set.count()).ok(),
        _ => None,
    }
}

/// `link_set BITS OP..`: the bitmap of the set, or `none`, and the answer to each of `with:LINK` and
/// `without:LINK` (the new bitmap), `has:LINK`, `within:BITS` and `count`.
fn link_set(alloc: Global, words: &[&str]) -> Option<String> {
    let (bits, ops) = words.split_first()?;
    let Some(mut set) = LinkSet::from_bits(number_of::<u16>(bits)?) else {
        return text(alloc, "none");
    };
    let mut out = format!(in alloc; "{}", set.bits()).ok()?;
    for op in ops {
        push_answer(&mut out, set_answer(alloc, &mut set, op))?;
    }
    Some(out)
}
