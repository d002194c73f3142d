//! Bodies of Association Request and Association Response frames, and what they say of each link.
#![tactic(auto)]

mod association;
mod decode;
mod encode;
mod laws;
mod links;
mod profiles;
mod setup;

pub use association::{AssocAsk, AssocReply};
pub use decode::{decode_ask, decode_reply};
pub use encode::{encode_ask, encode_reply};
pub use laws::{
    ask_read_once, ask_read_or_refused, ask_round_trip, ask_spelled_once, asks_of_profiles,
    asks_once, asks_or_refused, repeated_link, reply_read_once, reply_read_or_refused,
    reply_round_trip, reply_spelled_once, states_of_profiles, states_once, states_or_refused,
};
pub use links::{LinkAsk, LinkAsks, LinkState, LinkStates};
pub use profiles::is_basic;
pub use setup::{ask_profiles, links_of};
