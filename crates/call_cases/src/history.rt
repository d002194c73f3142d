//! Calls on what a history is made of.

use crate::octets::octets_text;
use crate::steps::{command_of, outcome_of};
use crate::words::{address_of, lane_of, link_of, number_of, text, u16s_of, yes};
use std::alloc::Global;
use wl_elem::{EndId, LinkSet, List, MacAddr};
use wl_history::{
    Cursor, EndStart, Item, LinkStart, LinkStarts, Plain, Positions, Script, SequenceNumbers, Start,
};

/// The answer of a call. None where there is none of this name, or a word can't be read.
pub fn answer(alloc: Global, name: &str, words: &[&str]) -> Option<String> {
    match name {
        "copy_start" => copied_start(alloc, words),
        "positions" => positions(alloc, words),
        "sequence_numbers" => sequence_numbers(alloc, words),
        "script" => script(alloc, words),
        "cursor" => cursor(alloc, words),
        _ => None,
    }
}

/// A link of a word: its ID, the affiliated AP's address and the station's.
fn link_start_of(alloc: Global, word: &str) -> Option<LinkStart> {
    let (id, addresses) = word.split_once(':')?;
    let (ap, sta) = addresses.split_once(':')?;
    let id = link_of(id)?;
    let ap = address_of(alloc, ap)?;
    let sta = address_of(alloc, sta)?;
    Some(LinkStart { id, ap, sta })
}

/// The links of these words.
fn link_starts_of(alloc: Global, words: &[&str]) -> Option<LinkStarts> {
    let mut links = LinkStarts::new(alloc);
    for word in words {
        links.push(link_start_of(alloc, word)?).ok()?;
    }
    Some(links)
}

/// What an end starts with that has these links and this first packet number.
fn end_start(alloc: Global, end: EndId, first_pn: u64, links: &[&str]) -> Option<EndStart> {
    Some(EndStart {
        end,
        ap: MacAddr::new([2, 0, 0, 0, 0, 1]),
        sta: MacAddr::new([2, 0, 0, 0, 0, 2]),
        key: [7; 16],
        links: link_starts_of(alloc, links)?,
        associated: true,
        window: 64,
        accept: LinkSet::from_bits(8)?,
        deny: false,
        first_key: 3,
        first_pn,
        newest: 9,
    })
}

/// Links, each as in a word.
fn links_text(alloc: Global, links: &LinkStarts) -> Option<String> {
    let mut out = text(alloc, "links")?;
    for link in links.as_slice() {
        let ap = octets_text(alloc, &link.ap.octets())?;
        let sta = octets_text(alloc, &link.sta.octets())?;
        write!(out, " {}:{ap}:{sta}", link.id.get()).ok()?;
    }
    Some(out)
}

/// The fields of what an end starts with that are flags and numbers.
fn fields_text(alloc: Global, s: &EndStart) -> Option<String> {
    let mut out = text(alloc, yes(s.associated))?;
    write!(out, " {} {} {}", s.window, s.accept.bits(), yes(s.deny)).ok()?;
    write!(out, " {} {} {}", s.first_key, s.first_pn, s.newest).ok()?;
    Some(out)
}

/// What an end starts with.
fn end_start_text(alloc: Global, s: &EndStart) -> Option<String> {
    let end = match s.end {
        EndId::Ap => "ap",
        EndId::Sta => "sta",
    };
    let ap = octets_text(alloc, &s.ap.octets())?;
    let sta = octets_text(alloc, &s.sta.octets())?;
    let key = octets_text(alloc, &s.key)?;
    let fields = fields_text(alloc, s)?;
    let links = links_text(alloc, &s.links)?;
    format!(in alloc; "{end} {ap} {sta} {key} {fields} {links}").ok()
}

/// What both ends start with here that have these links: an AP whose first packet number is 5, and a
/// station whose first is 1.
pub fn start_of(alloc: Global, links: &[&str]) -> Option<Start> {
    let ap = end_start(alloc, EndId::Ap, 5, links)?;
    let sta = end_start(alloc, EndId::Sta, 1, links)?;
    Some(Start { ap, sta })
}

/// What both ends start with, with `/` between the two.
pub fn start_text(alloc: Global, start: &Start) -> Option<String> {
    let ap = end_start_text(alloc, &start.ap)?;
    let sta = end_start_text(alloc, &start.sta)?;
    format!(in alloc; "{ap} / {sta}").ok()
}

/// `copy_start LINK..`: a copy of what both ends start with, of these links, each an ID and two
/// addresses.
fn copied_start(alloc: Global, words: &[&str]) -> Option<String> {
    let start = start_of(alloc, words)?;
    start_text(alloc, &start.copy(alloc).ok()?)
}

/// Positions of a word, in order; of no characters none.
pub fn positions_of(alloc: Global, word: &str) -> Option<Positions> {
    let mut positions = Positions::new(alloc);
    if !word.is_empty() {
        for pos in word.split(':') {
            positions.push(number_of::<u32>(pos)?).ok()?;
        }
    }
    Some(positions)
}

/// `positions POS:..`: the list of these positions.
fn positions(alloc: Global, words: &[&str]) -> Option<String> {
    let [word] = words else {
        return None;
    };
    let positions = positions_of(alloc, word)?;
    format!(in alloc; "{:?}", positions.as_slice()).ok()
}

/// Sequence numbers of a word, in order; of no characters none.
pub fn sequence_numbers_of(alloc: Global, word: &str) -> Option<SequenceNumbers> {
    let numbers = u16s_of(alloc, word)?;
    SequenceNumbers::from_slice(alloc, numbers.as_slice()).ok()
}

/// `sequence_numbers NUMBER:..`: the list of these numbers.
fn sequence_numbers(alloc: Global, words: &[&str]) -> Option<String> {
    let [word] = words else {
        return None;
    };
    let numbers = sequence_numbers_of(alloc, word)?;
    format!(in alloc; "{:?}", numbers.as_slice()).ok()
}

/// `script COMMAND..`: how many items a script has after each of these commands.
fn script(alloc: Global, words: &[&str]) -> Option<String> {
    let mut script = Script::new(alloc);
    let mut out = text(alloc, "items")?;
    for word in words {
        let command = command_of(alloc, word)?;
        script.push(Item::Once(Plain::Do(command))).ok()?;
        write!(out, " {}", script.as_slice().len()).ok()?;
    }
    Some(out)
}

/// A loop of this command.
fn rounds(alloc: Global, times: u32, command: &str) -> Option<Item> {
    let mut body = List::new(alloc);
    body.push(Plain::Do(command_of(alloc, command)?)).ok()?;
    Some(Item::Loop { times, body })
}

/// No rounds of a command, so many rounds of it, and a send of the AP over link 3 on lane 0.
fn looped(alloc: Global, times: u32, command: &str) -> Option<Script> {
    let mut script = Script::new(alloc);
    script.push(rounds(alloc, 0, command)?).ok()?;
    script.push(rounds(alloc, times, command)?).ok()?;
    let end = EndId::Ap;
    let link = link_of("3")?;
    let lane = lane_of("0")?;
    script
        .push(Item::Once(Plain::Send { end, link, lane }))
        .ok()?;
    Some(script)
}

/// Adds what a cursor asks for of a script.
fn put_asked(alloc: Global, out: &mut String, cursor: &Cursor, script: &Script) -> Option<()> {
    match cursor.asks(alloc, script).ok()? {
        Some(command) => write!(out, " {command:?}").ok(),
        None => write!(out, " nothing").ok(),
    }
}

/// `cursor TIMES COMMAND ANSWER..`: what a cursor asks for of such a script, at its beginning and behind
/// each of these answers.
fn cursor(alloc: Global, words: &[&str]) -> Option<String> {
    let [times, command, answers @ ..] = words else {
        return None;
    };
    let script = looped(alloc, number_of::<u32>(times)?, command)?;
    let mut cursor = Cursor::start();
    let mut out = text(alloc, "asks")?;
    put_asked(alloc, &mut out, &cursor, &script)?;
    for word in answers {
        cursor.advance(&script, &outcome_of(alloc, word)?);
        put_asked(alloc, &mut out, &cursor, &script)?;
    }
    Some(out)
}
