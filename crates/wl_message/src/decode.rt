//! Reading messages, by the codecs.

ghost use Rattle.std.specs.Prelude.{◌≡◌, ◌∷◌, [], IfOk};
ghost use Rattle.wl_message.specs.Message.{IsMessage, ReadAs};
ghost use Rattle.wl_message.specs.Codec.{ways_of, change_of, entry_in, IsEntry, AreChanges, ask_of, IsCandidate, IsChecked};

use crate::changes::{DOWNLINK, MapChanges, MapEntry, UPLINK, Ways, changes_of};
use crate::encode::encode_message;
use crate::laws::a_message_is_short;
use crate::message::Message;
use std::alloc::Global;
use wl_action::{Action, decode_action};
use wl_elem::{BODY_LIMIT, Element, Elements, Fault, Known, Memory};
use wl_map::Change;
use wl_ttlm::{Ttlm, decode_ttlm};

/// The directions of a mapping element.
fn ways_of(direction: u8) -> Ways
    ensures { result ≡ ways_of direction }
{
    match direction {
        DOWNLINK => Ways::Down,
        UPLINK => Ways::Up,
        _ => Ways::Both,
    }
}

/// What a mapping element asks for.
fn change_of(default: bool, maps: &[Option<u16>; 8]) -> Change
    ensures { result ≡ change_of default maps.now }
{
    if default {
        return Change::Default;
    }
    Change::Sets(*maps)
}

/// The entry that an element of this value stands for.
fn entry_in(value: &Ttlm) -> MapEntry
    ensures { result ≡ entry_in value.now }
{
    MapEntry {
        ways: ways_of(value.direction),
        change: change_of(value.default, &value.maps),
    }
}

/// The entry that an element stands for. None where it is no mapping element, or has no value.
fn entry_of(alloc: Global, element: &Element) -> Result<Option<MapEntry>, Memory>
    ensures { IfOk result (λ entry. IsEntry element.now entry) }
{
    if element.known() != Some(Known::TidToLinkMapping) {
        return Ok(None);
    }
    match decode_ttlm(alloc, element) {
        Ok(value) => Ok(Some(entry_in(&value))),
        Err(Fault::Refused(_)) => Ok(None),
        Err(Fault::Memory) => Err(Memory),
    }
}

/// What one element asks for.
fn by_one(alloc: Global, element: &Element) -> Result<MapChanges, Memory>
    ensures { IfOk result (λ changes. AreChanges (element.now ∷ []) changes) }
{
    match entry_of(alloc, element)? {
        Some(entry) => Ok(changes_of(&[entry])),
        None => Ok(changes_of(&[])),
    }
}

/// What two elements ask for.
fn by_two(alloc: Global, first: &Element, second: &Element) -> Result<MapChanges, Memory>
    ensures { IfOk result (λ changes. AreChanges (first.now ∷ second.now ∷ []) changes) }
{
    let Some(first) = entry_of(alloc, first)? else {
        return Ok(changes_of(&[]));
    };
    let Some(second) = entry_of(alloc, second)? else {
        return Ok(changes_of(&[]));
    };
    Ok(changes_of(&[first, second]))
}

/// What the elements of a request ask for.
fn changes_in(alloc: Global, elements: &Elements) -> Result<MapChanges, Memory>
    ensures { IfOk result (λ changes. AreChanges elements.now changes) }
{
    match elements.as_slice() {
        [element] => by_one(alloc, element),
        [first, second] => by_two(alloc, first, second),
        _ => Ok(changes_of(&[])),
    }
}

/// The request, where a direction is named.
fn ask_of(token: u8, changes: MapChanges) -> Option<Message>
    ensures { result ≡ ask_of token changes }
{
    if changes.down().is_some() || changes.up().is_some() {
        return Some(Message::MapAsk { token, changes });
    }
    None
}

/// The message that a value may stand for.
fn candidate(alloc: Global, action: &Action) -> Result<Option<Message>, Memory>
    ensures { IfOk result (λ message. IsCandidate action.now message) }
{
    match action {
        Action::MapAsk { token, elements } => {
            let changes = changes_in(alloc, elements)?;
            Ok(ask_of(*token, changes))
        }
        Action::MapReply { token, status, .. } => Ok(Some(Message::MapReply {
            token: *token,
            status: *status,
        })),
        Action::MapTeardown { .. } => Ok(Some(Message::MapTeardown)),
        _ => Ok(None),
    }
}

/// The message, where the body is what it is written in.
fn checked(alloc: Global, message: Message, body: &[u8]) -> Result<Option<Message>, Memory>
    requires { IsMessage message }
    ensures { IfOk result (λ answer. IsChecked message body.now answer) }
{
    let octets = encode_message(alloc, &message)?;
    if octets.as_slice() == body {
        return Ok(Some(message));
    }
    Ok(None)
}

/// Reads the body of an Action frame as what an end tells its peer of its own accord.
///
/// Some exactly where the body is what [`encode_message`] writes of a message, and then of this one.
/// None of every other body: where [`decode_action`] refuses it, where it is of another kind, and
/// where it has fields, elements or octets that no message is written with. `Memory` where there was
/// none to read it; it says nothing of the body.
pub fn decode_message(alloc: Global, body: &[u8]) -> Result<Option<Message>, Memory>
    ensures { IfOk result (ReadAs body.now) }
{
    a_message_is_short();
    if body.len() > BODY_LIMIT {
        return Ok(None);
    }
    let action = match decode_action(alloc, body) {
        Ok(action) => action,
        Err(Fault::Refused(_)) => return Ok(None),
        Err(Fault::Memory) => return Err(Memory),
    };
    match candidate(alloc, &action)? {
        Some(message) => checked(alloc, message, body),
        None => Ok(None),
    }
}
