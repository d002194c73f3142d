//! What association frames say of each link.

ghost use Rattle.std.specs.Prelude.{◌≡◌, ◌<◌, ◌^◌, ◌∷◌, ◌++◌, List, Result, IfOk, OnOk, length, map};
ghost use Rattle.wl_elem.specs.declared.fault.Refusal.{Refusal};
ghost use Rattle.wl_elem.specs.Answers.{Answers, AnswersOnly};
ghost use Rattle.wl_assoc.specs.declared.links.LinkAsk.{LinkAsk};
ghost use Rattle.wl_assoc.specs.declared.links.LinkState.{LinkState};
ghost use Rattle.wl_assoc.specs.Profiles.{AsksAs, StatesAs, ask_of, state_of};

use crate::association::{AssocAsk, AssocReply};
use crate::laws::{asks_once, states_once};
use crate::links::{LinkAsk, LinkAsks, LinkState, LinkStates};
use crate::profiles::{LinkEntry, entries_of};
use std::alloc::Global;
use wl_elem::{Fault, LinkId, Memory};

/// What a profile asks for.
fn ask_of(entry: LinkEntry) -> LinkAsk
    ensures { result ≡ ask_of entry }
{
    LinkAsk {
        link: entry.link,
        mac: entry.mac,
        capability: entry.capability,
        elements: entry.elements,
    }
}

/// What some profiles ask for.
fn asks_of(alloc: Global, entries: Vec<LinkEntry>) -> Result<LinkAsks, Memory>
    ensures { IfOk result (λ asks. asks ≡ map ask_of entries.items) }
{
    let asks = entries.into_iter().map(ask_of).collect(alloc)?;
    Ok(LinkAsks::from_vec(asks))
}

/// Adds what some profiles were answered.
fn put_states(states: &mut LinkStates, entries: &[LinkEntry]) -> Result<(), Memory>
    ensures { OnOk result (states.new ≡ states.old ++ map state_of entries.now) }
{
    'entries: for entry in entries {
        states.push(LinkState {
            link: entry.link,
            capability: entry.capability,
            status: entry.status,
        })?;
    }
    Ok(())
}

/// What a request asks for on each link but the one that carries it.
///
/// Ok exactly where the request has one Basic Multi-Link element, this is that of a value, and each of
/// its profiles passes its tests (IEEE Std 802.11be, 9.4.2.312.2 and 35.3). The list has them in their
/// order; a complete profile has the elements that it inherits from the frame and its own, another just
/// its own. Otherwise, in this order: NoMultiLink at 0 where there is no Basic Multi-Link element or a
/// second one; with `element` the index of that element, what `decode_ml` says of it; then, with `sub`
/// too, of the first profile that fails a test: RepeatedLink at 0 where an earlier profile has its
/// link, ProfileShort at the place of its body where that has fewer than 2 octets, what
/// `decode_elements` says of its elements, with the place counted in the joined subelement, and of a
/// complete profile what `expand` says of them, with `inner`. `Memory` where there was none for the
/// list; it says nothing of the request. There are fewer than 2^32 elements.
pub fn ask_profiles(alloc: Global, ask: &AssocAsk) -> Result<LinkAsks, Fault>
    requires { length ask.now.elements < 2 ^ 32 }
    ensures read { Answers result (AsksAs ask.now) }
    ensures only { (reading : Result (List LinkAsk) Refusal) → AsksAs ask.now reading → AnswersOnly result reading }
{
    asks_once();
    let entries = entries_of(alloc, false, &ask.elements)?;
    Ok(asks_of(alloc, entries)?)
}

/// What a response says of each link: of the link that carries it, `on`, its own capability and status,
/// and of the others what their profiles say.
///
/// Ok exactly where the response has one Basic Multi-Link element, this is that of a value, and each of
/// its profiles passes its tests (IEEE Std 802.11be, 9.4.2.312.2 and 35.3), those on its elements and
/// on inheritance too. Otherwise, in this order: NoMultiLink at 0 where there is no Basic Multi-Link
/// element or a second one; with `element` the index of that element, what `decode_ml` says of it;
/// then, with `sub` too, of the first profile that fails a test: RepeatedLink at 0 where an earlier
/// profile has its link, ProfileShort at the place of its body where that has fewer than 4 octets, what
/// `decode_elements` says of its elements, with the place counted in the joined subelement, and of a
/// complete profile what `expand` says of them, with `inner`. `Memory` where there was none for the
/// list; it says nothing of the response. There are fewer than 2^32 elements.
pub fn links_of(alloc: Global, reply: &AssocReply, on: LinkId) -> Result<LinkStates, Fault>
    requires { length reply.now.elements < 2 ^ 32 }
    ensures read { Answers result (StatesAs reply.now on) }
    ensures only { (reading : Result (List LinkState) Refusal) → StatesAs reply.now on reading → AnswersOnly result reading }
{
    states_once();
    let entries = entries_of(alloc, true, &reply.elements)?;
    let mut states = LinkStates::new(alloc);
    states.push(LinkState {
        link: on,
        capability: reply.capability,
        status: reply.status,
    })?;
    put_states(&mut states, entries.as_slice())?;
    Ok(states)
}
