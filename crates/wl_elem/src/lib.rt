//! Base types of the workspace and lists of IEEE 802.11 elements.
#![tactic(auto)]

mod address;
mod block;
mod bytes;
mod cutting_laws;
mod decode;
mod element;
mod elements;
mod encode;
mod fault;
mod fields;
mod item;
mod kind;
mod known;
mod lane;
mod laws;
mod limits;
mod link;
mod list;
mod piece;
mod put;
mod why;

pub use address::MacAddr;
pub use block::{Stop, cut_items};
pub use bytes::Bytes;
pub use cutting_laws::{
    cut_off_once, items_are_octets, items_cut_or_refused, items_length, items_not_both,
    items_read_once, items_spelled, items_spelled_once,
};
pub use decode::decode_elements;
pub use element::Element;
pub use elements::{Elements, find};
pub use encode::{encode_elements, encoded_len};
pub use fault::{Fault, KeysSpent, Memory, Refusal};
pub use fields::{
    first_cut, first_mac, first_u16, has_bit, mac_at, mac_if, mac_len, put_mac, put_short, put_u8,
    put_u16, put_u24, put_u64, short_if, short_len, u8_if, u8_len, u16_at, u16_if, u16_len, u24_if,
    u24_len, u64_if, u64_len, width_if,
};
pub use item::Item;
pub use kind::ListKind;
pub use known::{EXTENDED, Known, MULTI_LINK, NON_INHERITANCE, TID_TO_LINK_MAPPING};
pub use lane::{Direction, EndId, Lane, Tid};
pub use laws::{
    bodies_are_octets, read_once, read_or_refused, read_what_was_written, spelled, spelled_once,
};
pub use limits::{BODY_LIMIT, MSDU_LIMIT};
pub use link::{LinkId, LinkSet};
pub use list::List;
pub use put::put_item;
pub use why::Why;
