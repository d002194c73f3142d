//! The words of a line, and the words of an answer.

use std::alloc::Global;
use wl_elem::{LinkId, LinkSet, MacAddr};

/// What stands between the separators.
pub fn parts_of<'a>(alloc: Global, text: &'a str, separator: char) -> Option<Vec<&'a str>> {
    let mut parts = Vec::new(alloc);
    for part in text.split(separator) {
        parts.push(part).ok()?;
    }
    Some(parts)
}

/// A text as an answer.
pub fn text(alloc: Global, text: &str) -> Option<String> {
    String::from_str(alloc, text).ok()
}

/// The link of an ID.
pub fn link_of(word: &str) -> Option<LinkId> {
    LinkId::new(word.parse::<u8>().ok()?)
}

/// The address of twelve hex digits.
pub fn address_of(alloc: Global, word: &str) -> Option<MacAddr> {
    let octets = hex::decode(alloc, word).ok()?;
    match octets.as_slice() {
        [a, b, c, d, e, f] => Some(MacAddr::new([*a, *b, *c, *d, *e, *f])),
        _ => None,
    }
}

/// The set of these links: IDs with commas between them, or `-` for none.
pub fn links_of(word: &str) -> Option<LinkSet> {
    let mut links = LinkSet::from_bits(0)?;
    if word == "-" {
        return Some(links);
    }
    for id in word.split(',') {
        links = links.with(link_of(id)?);
    }
    Some(links)
}

/// The address on each link: entries `LINK=ADDRESS` with commas between them, or `-` for none.
pub fn addresses_of(alloc: Global, word: &str) -> Option<[Option<MacAddr>; 15]> {
    let mut macs = [None; 15];
    if word == "-" {
        return Some(macs);
    }
    for entry in word.split(',') {
        let (id, address) = entry.split_once('=')?;
        macs[usize::from(link_of(id)?.get())] = Some(address_of(alloc, address)?);
    }
    Some(macs)
}

/// The status of each link: entries `LINK=STATUS` with commas between them.
pub fn statuses_of(word: &str) -> Option<[Option<u16>; 15]> {
    let mut statuses = [None; 15];
    for entry in word.split(',') {
        let (id, status) = entry.split_once('=')?;
        statuses[usize::from(link_of(id)?.get())] = Some(status.parse::<u16>().ok()?);
    }
    Some(statuses)
}

/// Adds a comma behind an entry.
fn push_comma(out: &mut String) -> Option<()> {
    if out.is_empty() {
        return Some(());
    }
    out.push_str(",").ok()
}

/// A set of links as it is written in a line.
pub fn links_text(alloc: Global, links: LinkSet) -> Option<String> {
    let mut out = String::new(alloc);
    for id in 0..15_u8 {
        if links.has(LinkId::new(id)?) {
            push_comma(&mut out)?;
            write!(out, "{id}").ok()?;
        }
    }
    if out.is_empty() {
        return text(alloc, "-");
    }
    Some(out)
}

/// Addresses as they are written in a line.
pub fn addresses_text(alloc: Global, macs: &[Option<MacAddr>; 15]) -> Option<String> {
    let mut out = String::new(alloc);
    for (id, mac) in macs.iter().enumerate() {
        if let Some(mac) = mac {
            push_comma(&mut out)?;
            let digits = hex::encode(alloc, &mac.octets()).ok()?;
            write!(out, "{id}={digits}").ok()?;
        }
    }
    Some(out)
}

/// Statuses as they are written in a line.
pub fn statuses_text(alloc: Global, statuses: &[Option<u16>; 15]) -> Option<String> {
    let mut out = String::new(alloc);
    for (id, status) in statuses.iter().enumerate() {
        if let Some(status) = status {
            push_comma(&mut out)?;
            write!(out, "{id}={status}").ok()?;
        }
    }
    Some(out)
}
