//! Reading the entries of a request for mappings.

ghost use Rattle.std.specs.Prelude.{◌≡◌, ◌^◌};
ghost use Rattle.serde_json.specs.View.{view, items_view};
ghost use Rattle.wl_scene.specs.Answering.{Gives};
ghost use Rattle.wl_scene.specs.Members.{below};
ghost use Rattle.wl_scene.specs.Entries.{ways_named, ways_at, bitmap_of, bitmaps_of, bitmaps_at, change_of, entry_of, entries_of, entries_at};

use crate::fault::Stop;
use crate::member::{has_only, has_true, list, text};
use serde_json::Value;
use std::alloc::Global;
use wl_map::Change;
use wl_message::{MapEntries, MapEntry, Ways};

/// The directions of a name.
fn ways_of(name: &str) -> Option<Ways>
    ensures { result ≡ ways_named name.now }
{
    if name == "down" {
        return Some(Ways::Down);
    }
    if name == "up" {
        return Some(Ways::Up);
    }
    if name == "both" {
        return Some(Ways::Both);
    }
    None
}

/// The member `dir`: `down`, `up` or `both`.
fn ways(value: &Value) -> Option<Ways>
    ensures { result ≡ ways_at (view value.now) }
{
    match text(value, "dir") {
        Some(name) => ways_of(name),
        None => None,
    }
}

/// A number of 16 bits.
fn word_of(n: u64) -> Option<u16>
    ensures { result ≡ below (2 ^ 16) n }
{
    u16::try_from(n).ok()
}

/// A bitmap of links, or null. None where it is neither.
fn bitmap(value: &Value) -> Option<Option<u16>>
    ensures { result ≡ bitmap_of (view value.now) }
{
    if value.is_null() {
        return Some(None);
    }
    match value.as_u64() {
        Some(n) => match word_of(n) {
            Some(bits) => Some(Some(bits)),
            None => None,
        },
        None => None,
    }
}

/// The bitmaps of eight TIDs. None where there are fewer or more, or one is wrong.
fn eight(values: &[Value]) -> Option<[Option<u16>; 8]>
    ensures { result ≡ bitmaps_of (items_view values.now) }
{
    match values {
        [zero, one, two, three, four, five, six, seven] => {
            let zero = bitmap(zero)?;
            let one = bitmap(one)?;
            let two = bitmap(two)?;
            let three = bitmap(three)?;
            let four = bitmap(four)?;
            let five = bitmap(five)?;
            let six = bitmap(six)?;
            let seven = bitmap(seven)?;
            Some([zero, one, two, three, four, five, six, seven])
        }
        _ => None,
    }
}

/// The member `map`, the bitmaps of eight TIDs.
fn bitmaps(value: &Value) -> Option<[Option<u16>; 8]>
    ensures { result ≡ bitmaps_at (view value.now) }
{
    match list(value, "map") {
        Some(values) => eight(values),
        None => None,
    }
}

/// What the directions of an entry are to become, beside its member `dir`: the member `map`, or `default`
/// that is true.
fn change(value: &Value) -> Option<Change>
    ensures { result ≡ change_of (view value.now) }
{
    if has_only(value, &["dir", "map"]) {
        let maps = bitmaps(value)?;
        return Some(Change::Sets(maps));
    }
    if has_only(value, &["dir", "default"]) && has_true(value, "default") {
        return Some(Change::Default);
    }
    None
}

/// An entry.
fn entry(value: &Value) -> Option<MapEntry>
    ensures { result ≡ entry_of (view value.now) }
{
    let ways = ways(value)?;
    let change = change(value)?;
    Some(MapEntry { ways, change })
}

/// The entries of a list. Wrong where there are more than two, or one is wrong.
fn entries_in(alloc: Global, values: &[Value]) -> Result<MapEntries, Stop>
    ensures { Gives result (entries_of (items_view values.now)) }
{
    if values.len() > 2 {
        return Err(Stop::Wrong);
    }
    let mut entries = MapEntries::new(alloc);
    'entries: for value in values {
        let entry = match entry(value) {
            Some(entry) => entry,
            None => return Err(Stop::Wrong),
        };
        match entries.push(entry) {
            Ok(()) => {}
            Err(_) => return Err(Stop::NoMemory),
        }
    }
    Ok(entries)
}

/// The member `entries`, at most two.
pub fn entries(alloc: Global, value: &Value) -> Result<MapEntries, Stop>
    ensures { Gives result (entries_at (view value.now)) }
{
    match list(value, "entries") {
        Some(values) => entries_in(alloc, values),
        None => Err(Stop::Wrong),
    }
}
