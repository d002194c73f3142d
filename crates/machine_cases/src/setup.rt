//! Both ends of multi-link setup.

use crate::words::{
    address_of, addresses_of, addresses_text, link_of, links_of, links_text, parts_of, statuses_of,
    statuses_text, text,
};
use std::alloc::Global;
use wl_setup::{ApSetup, SetupAsk, SetupRefusal, SetupReply, StationSetup};

/// A request: the carrying link, the MLD address and the addresses.
pub fn ask_text(alloc: Global, ask: &SetupAsk) -> Option<String> {
    let mld = hex::encode(alloc, &ask.mld.octets()).ok()?;
    let macs = addresses_text(alloc, &ask.macs)?;
    format!(in alloc; "{}:{mld}:{macs}", ask.on.get()).ok()
}

/// A reply: the carrying link and the statuses.
pub fn reply_text(alloc: Global, reply: &SetupReply) -> Option<String> {
    let statuses = statuses_text(alloc, &reply.status)?;
    format!(in alloc; "{}:{statuses}", reply.on.get()).ok()
}

/// The name of a refusal.
fn refusal_text(refusal: SetupRefusal) -> &'static str {
    match refusal {
        SetupRefusal::Joined => "joined",
        SetupRefusal::NotValid => "not_valid",
        SetupRefusal::Unpowered => "unpowered",
    }
}

/// What the station answers to `ask:ON:LINKS:POWERED`.
fn asked(
    alloc: Global,
    station: &mut StationSetup,
    on: &str,
    links: &str,
    powered: &str,
) -> Option<String> {
    match station.ask(link_of(on)?, links_of(links)?, links_of(powered)?) {
        Ok(ask) => ask_text(alloc, &ask),
        Err(refusal) => text(alloc, refusal_text(refusal)),
    }
}

/// What the station answers to `reply:ON:STATUSES`.
fn taken(alloc: Global, station: &mut StationSetup, on: &str, statuses: &str) -> Option<String> {
    let reply = SetupReply {
        on: link_of(on)?,
        status: statuses_of(statuses)?,
    };
    if reply.status[usize::from(reply.on.get())].is_none() {
        return None;
    }
    match station.on_reply(&reply) {
        Some(status) => format!(in alloc; "{status}").ok(),
        None => text(alloc, "ignored"),
    }
}

/// What the station answers to a call.
fn station_answer(alloc: Global, station: &mut StationSetup, call: &str) -> Option<String> {
    let words = parts_of(alloc, call, ':')?;
    match words.as_slice() {
        ["ask", on, links, powered] => asked(alloc, station, on, links, powered),
        ["reply", on, statuses] => taken(alloc, station, on, statuses),
        ["links"] => links_text(alloc, station.links()),
        _ => None,
    }
}

/// `station_setup MLD ADDRESSES LINKS CALL..`: what a station answers to each of `ask:ON:LINKS:POWERED`
/// (the request `ON:MLD:ADDRESSES`, or the refusal), `reply:ON:STATUSES` (the status of the carrying link,
/// or `ignored`) and `links`.
pub fn station_setup(alloc: Global, words: &[&str]) -> Option<String> {
    let [mld, macs, links, calls @ ..] = words else {
        return None;
    };
    let mld = address_of(alloc, mld)?;
    let mut station = StationSetup::new(mld, addresses_of(alloc, macs)?, links_of(links)?);
    let mut out = text(alloc, "station")?;
    for call in calls {
        let answer = station_answer(alloc, &mut station, call)?;
        write!(out, " {answer}").ok()?;
    }
    Some(out)
}

/// What the AP answers to `ask:ON:MLD:ADDRESSES:POWERED`.
fn replied(alloc: Global, ap: &mut ApSetup, ask: &SetupAsk, powered: &str) -> Option<String> {
    if ask.macs[usize::from(ask.on.get())].is_none() {
        return None;
    }
    match ap.on_ask(ask, links_of(powered)?) {
        Some(reply) => reply_text(alloc, &reply),
        None => text(alloc, "none"),
    }
}

/// What the AP answers to a call.
fn ap_answer(alloc: Global, ap: &mut ApSetup, call: &str) -> Option<String> {
    let words = parts_of(alloc, call, ':')?;
    match words.as_slice() {
        ["ask", on, mld, macs, powered] => {
            let ask = SetupAsk {
                on: link_of(on)?,
                mld: address_of(alloc, mld)?,
                macs: addresses_of(alloc, macs)?,
            };
            replied(alloc, ap, &ask, powered)
        }
        ["links"] => links_text(alloc, ap.links()),
        _ => None,
    }
}

/// `ap_setup MLD ADDRESSES ACCEPT LINKS CALL..`: what an AP answers to each of
/// `ask:ON:MLD:ADDRESSES:POWERED` (the reply `ON:STATUSES`, or `none`) and `links`.
pub fn ap_setup(alloc: Global, words: &[&str]) -> Option<String> {
    let [mld, macs, accept, links, calls @ ..] = words else {
        return None;
    };
    let mld = address_of(alloc, mld)?;
    let macs = addresses_of(alloc, macs)?;
    let mut ap = ApSetup::new(mld, macs, links_of(accept)?, links_of(links)?);
    let mut out = text(alloc, "ap")?;
    for call in calls {
        let answer = ap_answer(alloc, &mut ap, call)?;
        write!(out, " {answer}").ok()?;
    }
    Some(out)
}
