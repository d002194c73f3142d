//! What a request for mappings asks for.

ghost use Rattle.std.specs.Prelude.{◌≡◌, ◌↔◌, true, length, IfSome, IsTrue};
ghost use Rattle.std.specs.List.{AllByRecursion};
ghost use Rattle.wl_elem.specs.Fields.{Fits};
ghost use Rattle.wl_message.specs.Message.{down_of, up_of, is_named, by_entry, joined, changes_of, IsChange, IsChanges};

use wl_elem::List;
use wl_map::Change;

/// The direction of a mapping element from the AP to the station (IEEE Std 802.11be, 9.4.2.314).
pub(crate) const DOWNLINK: u8 = 0;
/// The direction from the station to the AP.
pub(crate) const UPLINK: u8 = 1;
/// Both directions.
pub(crate) const BOTH: u8 = 2;

/// The directions that an entry of a request names.
#[derive(Clone, Copy, Debug, PartialEq, Eq)]
pub enum Ways {
    /// From the AP to the station.
    Down,
    /// From the station to the AP.
    Up,
    /// Both.
    Both,
}

/// An entry of a request: what some directions are to become.
#[derive(Clone, Copy, Debug, PartialEq, Eq)]
pub struct MapEntry {
    /// The directions.
    pub ways: Ways,
    /// What they are to become.
    pub change: Change,
}

/// A bitmap has 16 bits.
fn test_map(map: Option<u16>) -> bool
    ensures fits { Fits 2 map }
    ensures holds { result ≡ true }
{
    true
}

/// The bitmaps of eight TIDs have 16 bits each.
fn test_maps(maps: &[Option<u16>; 8])
    ensures eight { length maps.now ≡ 8 }
    ensures fit { AllByRecursion (Fits 2) maps.now }
{
    maps.iter().all(|map| test_map(*map));
}

/// Tells that the bitmaps of a change are those of eight TIDs, of 16 bits each, as its type says. It does
/// nothing else, and takes no memory.
pub fn test_change(change: &Change)
    ensures { IsChange change.now }
{
    if let Change::Sets(maps) = change {
        test_maps(maps);
    }
}

/// The same, where a change is asked for.
fn test_if(change: Option<Change>)
    ensures { IfSome change IsChange }
{
    if let Some(change) = &change {
        test_change(change);
    }
}

/// The entries of a request, at most two.
pub type MapEntries = List<MapEntry>;

/// What a request asks for.
#[derive(Clone, Copy, Debug, PartialEq, Eq)]
pub enum MapChanges {
    /// One change for both directions.
    Both(Change),
    /// A change for each direction that is named.
    Each {
        /// Of the direction from the AP to the station.
        down: Option<Change>,
        /// Of the direction from the station to the AP.
        up: Option<Change>,
    },
}

impl MapChanges {
    /// Whether a direction is named. It takes no memory.
    pub fn is_named(&self) -> bool
        ensures exact { result ≡ is_named self.now }
        ensures bitmaps { IsTrue result ↔ IsChanges self.now }
    {
        let (down, up) = (self.down(), self.up());
        test_if(down);
        test_if(up);
        down.is_some() || up.is_some()
    }

    /// The change of the direction from the AP to the station. None where that is to stay.
    pub fn down(&self) -> Option<Change>
        ensures { result ≡ down_of self.now }
    {
        match self {
            MapChanges::Both(change) => Some(*change),
            MapChanges::Each { down, .. } => *down,
        }
    }

    /// The change of the direction from the station to the AP. None where that is to stay.
    pub fn up(&self) -> Option<Change>
        ensures { result ≡ up_of self.now }
    {
        match self {
            MapChanges::Both(change) => Some(*change),
            MapChanges::Each { up, .. } => *up,
        }
    }
}

/// What one entry asks for.
fn by_entry(entry: &MapEntry) -> MapChanges
    ensures { result ≡ by_entry entry.now }
{
    let change = entry.change;
    match entry.ways {
        Ways::Down => MapChanges::Each {
            down: Some(change),
            up: None,
        },
        Ways::Up => MapChanges::Each {
            down: None,
            up: Some(change),
        },
        Ways::Both => MapChanges::Both(change),
    }
}

/// What two entries ask for, by what each asks for.
fn joined(a: MapChanges, b: MapChanges) -> MapChanges
    ensures { result ≡ joined a b }
{
    match (a, b) {
        (
            MapChanges::Each {
                down: Some(down),
                up: None,
            },
            MapChanges::Each {
                down: None,
                up: Some(up),
            },
        ) => MapChanges::Each {
            down: Some(down),
            up: Some(up),
        },
        (
            MapChanges::Each {
                down: None,
                up: Some(up),
            },
            MapChanges::Each {
                down: Some(down),
                up: None,
            },
        ) => MapChanges::Each {
            down: Some(down),
            up: Some(up),
        },
        _ => MapChanges::Each {
            down: None,
            up: None,
        },
    }
}

/// What entries ask for: the change of each direction that one of them names, one entry for both
/// directions or one for each of them. Where there are none or more than two, or a direction is named
/// twice, no direction is named.
pub fn changes_of(entries: &[MapEntry]) -> MapChanges
    ensures { result ≡ changes_of entries.now }
{
    match entries {
        [entry] => by_entry(entry),
        [first, second] => joined(by_entry(first), by_entry(second)),
        _ => MapChanges::Each {
            down: None,
            up: None,
        },
    }
}
