//! Laws of the definitions, each the contract of a function that does nothing.

ghost use Rattle.std.specs.Prelude.{◌≡◌, ◌≤◌, length};
ghost use Rattle.wl_message.specs.declared.message.Message.{Message};
ghost use Rattle.wl_message.specs.Message.{IsMessage, message_octets, message_of};

/// The octets of a message say which message it is.
pub fn a_message_is_read()
    ensures { (m : Message) → IsMessage m → message_of (message_octets m) ≡ m }
{}

/// A message has at most 64 octets.
pub fn a_message_is_short()
    ensures { (m : Message) → IsMessage m → length (message_octets m) ≤ 64 }
{}

/// A body is one message's at most.
pub fn a_body_is_one_message()
    ensures { (m n : Message) → IsMessage m → IsMessage n → message_octets m ≡ message_octets n → m ≡ n }
{}
