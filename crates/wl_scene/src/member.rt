//! Members of JSON objects that are read.

ghost use Rattle.std.specs.Prelude.{◌≡◌, ◌<◌, ◌^◌, ◌≤◌, map, option_map, option_and_then, IfSome, length};
ghost use Rattle.serde_json.specs.Find.{get};
ghost use Rattle.serde_json.specs.View.{view, members_view, items_view};
ghost use Rattle.wl_scene.specs.Members.{is_among, are_among, has_only as only_has, whole_at, text_at, list_at, octets_at, has_number as has_this_number, has_text as has_this_text, bool_at, has_true as has_this_true};

use hex::FromHex;
use serde_json::{Map, Value};
use wl_elem::MacAddr;

/// Whether a name is one of these.
fn is_one_of(name: &str, names: &[&str]) -> bool
    ensures { result ≡ is_among name.now (map (λ n. n.now) names.now) }
{
    'names: for other in names {
        if name == *other {
            return true;
        }
    }
    false
}

/// Whether each member has one of these names.
fn are_of(members: &Map<String, Value>, names: &[&str]) -> bool
    ensures { result ≡ are_among (members_view members.now.entries) (map (λ n. n.now) names.now) }
{
    'members: for name in members.keys() {
        if !is_one_of(name.as_str(), names) {
            return false;
        }
    }
    true
}

/// Whether a value is an object without a member of another name than these.
pub fn has_only(value: &Value, names: &[&str]) -> bool
    ensures { result ≡ only_has (map (λ n. n.now) names.now) (view value.now) }
{
    match value.as_object() {
        Some(members) => are_of(members, names),
        None => false,
    }
}

/// The whole number that a member is.
pub fn whole(value: &Value, name: &str) -> Option<u64>
    ensures { result ≡ whole_at name.now (view value.now) }
{
    match value.get(name) {
        Some(member) => member.as_u64(),
        None => None,
    }
}

/// The text that a member is.
pub fn text<'v>(value: &'v Value, name: &str) -> Option<&'v str>
    ensures { option_map (λ t. t.now) result ≡ text_at name.now (view value.now) }
{
    match value.get(name) {
        Some(member) => member.as_str(),
        None => None,
    }
}

/// The list that a member is.
pub fn list<'v>(value: &'v Value, name: &str) -> Option<&'v [Value]>
    ensures { option_map (λ l. items_view l.now) result ≡ list_at name.now (view value.now) }
{
    match value.get(name) {
        Some(member) => match member.as_array() {
            Some(list) => Some(list.as_slice()),
            None => None,
        },
        None => None,
    }
}

/// Whether a member is this number.
pub fn has_number(value: &Value, name: &str, number: u64) -> bool
    ensures { result ≡ has_this_number name.now number (view value.now) }
{
    match whole(value, name) {
        Some(n) => n == number,
        None => false,
    }
}

/// Whether a member is this text.
pub fn has_text(value: &Value, name: &str, word: &str) -> bool
    ensures { result ≡ has_this_text name.now word.now (view value.now) }
{
    match text(value, name) {
        Some(text) => text == word,
        None => false,
    }
}

/// True or false, where a member is one of them.
pub fn boolean(value: &Value, name: &str) -> Option<bool>
    ensures { result ≡ bool_at name.now (view value.now) }
{
    match value.get(name) {
        Some(member) => member.as_bool(),
        None => None,
    }
}

/// Whether a member is true.
pub fn has_true(value: &Value, name: &str) -> bool
    ensures { result ≡ has_this_true name.now (view value.now) }
{
    match boolean(value, name) {
        Some(is) => is,
        None => false,
    }
}

/// The address that a member is, 12 hex digits.
pub fn address(value: &Value, name: &str) -> Option<MacAddr>
    ensures value { result ≡ octets_at name.now 6 (view value.now) }
    ensures six { IfSome result (λ a. length a ≡ 6) }
{
    match text(value, name) {
        Some(text) => match <[u8; 6]>::from_hex(text) {
            Ok(octets) => Some(MacAddr::new(octets)),
            Err(_) => None,
        },
        None => None,
    }
}

/// The key that a member is, 32 hex digits.
pub fn key(value: &Value, name: &str) -> Option<[u8; 16]>
    ensures value { result ≡ octets_at name.now 16 (view value.now) }
    ensures sixteen { IfSome result (λ k. length k ≡ 16) }
{
    match text(value, name) {
        Some(text) => match <[u8; 16]>::from_hex(text) {
            Ok(octets) => Some(octets),
            Err(_) => None,
        },
        None => None,
    }
}
