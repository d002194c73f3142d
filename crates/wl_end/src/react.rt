//! What an end makes of a body of its peer that is released.

ghost use Rattle.std.specs.Prelude.{◌≡◌, IfOk, IfSome, OnOk};
ghost use Rattle.wl_message.specs.Message.{IsMade, IsMessage, message_octets, message_of};
ghost use Rattle.wl_history.specs.Machines.{IsBodyOn};
ghost use Rattle.wl_end.specs.Parts.{IsShort};
ghost use Rattle.wl_end.specs.Reacting.{maps_after, maps_told, reply_to, reply_told};

use std::alloc::Global;
use wl_elem::{Bytes, Lane, Memory};
use wl_map::{MapAsk, MapEnd};
use wl_message::{Message, a_message_is_read, a_message_is_short, decode_message, encode_message};

/// The message that a body is, which an end made.
fn message_of(alloc: Global, body: &[u8]) -> Result<Message, Memory>
    requires { IsMade body.now }
    ensures value { IfOk result (λ m. m ≡ message_of body.now) }
    ensures good { IfOk result IsMessage }
{
    a_message_is_read();
    match decode_message(alloc, body) {
        Ok(Some(message)) => Ok(message),
        Ok(None) => unreachable!(),
        Err(memory) => Err(memory),
    }
}

/// The octets of a message.
fn octets_of(alloc: Global, message: &Message) -> Result<Bytes, Memory>
    requires { IsMessage message.now }
    ensures octets { IfOk result (λ b. b ≡ message_octets message.now) }
    ensures short { IfOk result IsShort }
{
    a_message_is_short();
    encode_message(alloc, message)
}

/// Lets a message act on the mappings. The reply to it, where there is one.
fn act(message: &Message, maps: &mut MapEnd) -> Option<Message>
    requires { IsMessage message.now }
    ensures maps { maps.new ≡ maps_after message.now maps.old }
    ensures reply { result ≡ reply_to message.now maps.old }
    ensures good { IfSome result IsMessage }
{
    match message {
        Message::MapAsk { token, changes } => {
            let status = maps.on_ask(&MapAsk {
                token: *token,
                down: changes.down(),
                up: changes.up(),
            });
            Some(Message::MapReply {
                token: *token,
                status,
            })
        }
        Message::MapReply { token, status } => {
            maps.on_reply(*token, *status);
            None
        }
        Message::MapTeardown => {
            maps.on_teardown();
            None
        }
    }
}

/// Lets a body of management act on the mappings. The body of the reply to it, where there is one.
fn react_to(alloc: Global, body: &[u8], maps: &mut MapEnd) -> Result<Option<Bytes>, Memory>
    requires { IsMade body.now }
    ensures maps { OnOk result (maps.new ≡ maps_told Lane.Management body.now maps.old) }
    ensures reply { IfOk result (λ r. r ≡ reply_told Lane.Management body.now maps.old) }
    ensures short { IfOk result (λ r. IfSome r IsShort) }
{
    let message = message_of(alloc, body)?;
    match act(&message, maps) {
        Some(reply) => match octets_of(alloc, &reply) {
            Ok(octets) => Ok(Some(octets)),
            Err(memory) => Err(memory),
        },
        None => Ok(None),
    }
}

/// Lets a body of a lane act on the mappings, where it is one of management. The body of the reply to
/// it, where there is one.
pub(crate) fn react(
    alloc: Global,
    lane: &Lane,
    body: &[u8],
    maps: &mut MapEnd,
) -> Result<Option<Bytes>, Memory>
    requires { IsBodyOn lane.now body.now }
    ensures maps { OnOk result (maps.new ≡ maps_told lane.now body.now maps.old) }
    ensures reply { IfOk result (λ r. r ≡ reply_told lane.now body.now maps.old) }
    ensures short { IfOk result (λ r. IfSome r IsShort) }
{
    match lane {
        Lane::Tid(_) => Ok(None),
        Lane::Management => react_to(alloc, body, maps),
    }
}
