//! The bodies of Action frames that ends make of their own accord: typed messages, their octets, and back.
#![tactic(auto)]

mod changes;
mod decode;
mod encode;
mod laws;
mod message;

pub use changes::{MapChanges, MapEntries, MapEntry, Ways, changes_of, test_change};
pub use decode::decode_message;
pub use encode::encode_message;
pub use laws::{a_body_is_one_message, a_message_is_read, a_message_is_short};
pub use message::Message;
