//! Messages.

ghost use Rattle.std.specs.Prelude.{◌↔◌, ◌<◌, IsTrue};

use crate::changes::MapChanges;

/// What an end tells its peer in an Action frame of its own accord.
#[derive(Clone, Copy, Debug, PartialEq, Eq)]
pub enum Message {
    /// A request for new mappings (IEEE Std 802.11be, 35.3.7).
    MapAsk {
        /// The dialog token.
        token: u8,
        /// What is asked for; a direction is named.
        changes: MapChanges,
    },
    /// The reply to one.
    MapReply {
        /// The token of the request.
        token: u8,
        /// The status code.
        status: u16,
    },
    /// A teardown of the mappings of both directions.
    MapTeardown,
}

/// A token is of one octet, and a status of two.
fn test_fields(token: u8, status: u16)
    ensures token { token < 256 }
    ensures status { status < 65536 }
{}

impl Message {
    ghost use Rattle.wl_message.specs.Message.{IsMessage};

    /// Whether the message has octets: true of all but a request that names no direction. It takes no
    /// memory.
    pub fn has_octets(&self) -> bool
        ensures { IsTrue result ↔ IsMessage self.now }
    {
        match self {
            Message::MapAsk { token, changes } => {
                test_fields(*token, 0);
                changes.is_named()
            }
            Message::MapReply { token, status } => {
                test_fields(*token, *status);
                true
            }
            Message::MapTeardown => true,
        }
    }
}
