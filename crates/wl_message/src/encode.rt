//! Writing messages, by the codecs.

ghost use Rattle.std.specs.Prelude.{◌≡◌, ◌<◌, ◌++◌, IfOk, OnOk, IfSome};
ghost use Rattle.wl_message.specs.Message.{IsChange, IsChanges, IsMessage, message_octets};
ghost use Rattle.wl_message.specs.Codec.{ttlm_of, element_of, element_if, element_list, action_of};

use crate::changes::{BOTH, DOWNLINK, MapChanges, UPLINK};
use crate::message::Message;
use std::alloc::Global;
use wl_action::{Action, encode_action};
use wl_elem::{Bytes, Element, Elements, Memory};
use wl_map::Change;
use wl_ttlm::{Ttlm, encode_ttlm};

/// The value of the mapping element that asks for a change of this direction.
fn ttlm_of(alloc: Global, direction: u8, change: &Change) -> Ttlm
    ensures { result ≡ ttlm_of direction change.now }
{
    let (default, maps) = match change {
        Change::Default => (true, [None; 8]),
        Change::Sets(maps) => (false, *maps),
    };
    Ttlm {
        direction,
        default,
        spare: 0,
        narrow: false,
        switch: None,
        duration: None,
        maps,
        tail: Bytes::new(alloc),
    }
}

/// The mapping element that asks for a change of this direction.
fn element_of(alloc: Global, direction: u8, change: &Change) -> Result<Element, Memory>
    requires known { direction < 3 }
    requires valid { IsChange change.now }
    ensures { IfOk result (λ e. e ≡ element_of direction change.now) }
{
    let value = ttlm_of(alloc, direction, change);
    encode_ttlm(alloc, &value)
}

/// Adds the mapping element of this direction, where a change is asked for.
fn put_change(
    alloc: Global,
    list: &mut Elements,
    direction: u8,
    change: Option<Change>,
) -> Result<(), Memory>
    requires known { direction < 3 }
    requires valid { IfSome change IsChange }
    ensures { OnOk result (list.new ≡ list.old ++ element_if direction change) }
{
    match change {
        Some(change) => {
            let element = element_of(alloc, direction, &change)?;
            list.push(element)
        }
        None => Ok(()),
    }
}

/// The mapping elements of a request.
fn elements_of(alloc: Global, changes: &MapChanges) -> Result<Elements, Memory>
    requires { IsChanges changes.now }
    ensures { IfOk result (λ list. list ≡ element_list changes.now) }
{
    let mut list = Elements::new(alloc);
    match changes {
        MapChanges::Both(change) => {
            put_change(alloc, &mut list, BOTH, Some(*change))?;
            Ok(list)
        }
        MapChanges::Each { down, up } => {
            put_change(alloc, &mut list, DOWNLINK, *down)?;
            put_change(alloc, &mut list, UPLINK, *up)?;
            Ok(list)
        }
    }
}

/// The value of the body.
fn action_of(alloc: Global, message: &Message) -> Result<Action, Memory>
    requires { IsMessage message.now }
    ensures { IfOk result (λ action. action ≡ action_of message.now) }
{
    match message {
        Message::MapAsk { token, changes } => {
            let elements = elements_of(alloc, changes)?;
            Ok(Action::MapAsk {
                token: *token,
                elements,
            })
        }
        Message::MapReply { token, status } => Ok(Action::MapReply {
            token: *token,
            status: *status,
            elements: Elements::new(alloc),
        }),
        Message::MapTeardown => Ok(Action::MapTeardown {
            rest: Bytes::new(alloc),
        }),
    }
}

/// The body of a message (IEEE Std 802.11be, 9.6.35): category 37, the action, and what stands behind
/// them. A request names a direction, and each change of it is the default or eight bitmaps. `Memory`
/// where there was none for the body.
pub fn encode_message(alloc: Global, message: &Message) -> Result<Bytes, Memory>
    requires { IsMessage message.now }
    ensures { IfOk result (λ b. b ≡ message_octets message.now) }
{
    wl_action::spelled_once();
    let action = action_of(alloc, message)?;
    encode_action(alloc, &action)
}
