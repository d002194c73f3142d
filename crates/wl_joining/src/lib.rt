//! The bodies of association frames that ends make for multi-link setup, and what an end takes of any
//! body.
#![tactic(auto)]

mod facts;
mod laws;
mod read;
mod write;

pub use facts::{ask_facts, reply_facts};
pub use laws::{
    a_reply_is_encoded, a_reply_is_read, a_written_ask_is_taken, a_written_reply_is_taken,
    an_ask_is_encoded, an_ask_is_read, asks_read_once, bodies_are_short, replies_read_once,
    the_carrying_link_is_named,
};
pub use read::{read_ask, read_reply};
pub use write::{write_ask, write_reply};
