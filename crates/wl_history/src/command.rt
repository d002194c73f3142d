//! Commands.

ghost use Rattle.std.specs.Prelude.{◌≡◌, ◌<◌, ◌^◌, true, IfOk};
ghost use Rattle.wl_history.specs.Machines.{AreEntries, IsEntry};
ghost use Rattle.wl_history.specs.Legal.{InRanges, InWord};

use std::alloc::Global;
use wl_elem::{Bytes, EndId, Lane, LinkId, List, Memory, Tid};
use wl_message::{MapEntries, MapEntry, test_change};

/// What an end may have asked its peer for.
#[derive(Clone, Copy, Debug, PartialEq, Eq)]
pub enum Machine {
    /// New mappings of TIDs to links.
    Map,
}

/// What an end is told to do. `end` is the end that acts; a frame that it hears comes from the other.
#[derive(Debug, Drop)]
pub enum Command {
    /// Put an MSDU at the end of the queue of a TID.
    Queue {
        /// The sender.
        end: EndId,
        /// The TID.
        tid: Tid,
        /// The MSDU, of 1 to 2,304 octets.
        body: Bytes,
    },
    /// Reserve room in the lane's window for the thread's hand.
    Reserve {
        /// The sender.
        end: EndId,
        /// The lane.
        lane: Lane,
    },
    /// Give the reserve in the hand the lane's next position and the key's next packet number.
    Book {
        /// The sender.
        end: EndId,
    },
    /// Send the booking in the hand over a link.
    Put {
        /// The sender.
        end: EndId,
        /// The link.
        link: LinkId,
    },
    /// Send a booking over a link again, or for the first time where it was kept: the same sealed payload.
    Again {
        /// The sender.
        end: EndId,
        /// The link.
        link: LinkId,
        /// The lane.
        lane: Lane,
        /// The position.
        pos: u32,
    },
    /// Hear a frame that the peer sent over a link.
    Deliver {
        /// The receiver.
        end: EndId,
        /// The link.
        link: LinkId,
        /// Which frame, counted from 0; the latest where there is none.
        nth: Option<u32>,
    },
    /// Hear a frame that the peer sent over a link, with another sequence number.
    Alter {
        /// The receiver.
        end: EndId,
        /// The link.
        link: LinkId,
        /// Which frame, counted from 0; the latest where there is none.
        nth: Option<u32>,
        /// The sequence number, below 4,096.
        number: u16,
    },
    /// Hear a frame of the peer that somebody sealed.
    Forge {
        /// The receiver.
        end: EndId,
        /// The link.
        link: LinkId,
        /// The lane.
        lane: Lane,
        /// The number of the key that it is sealed under.
        key: u16,
        /// The packet number, 1 to 2^48 - 1.
        pn: u64,
        /// The sequence number, below 4,096.
        number: u16,
        /// The body, of 1 to 2,304 octets.
        body: Bytes,
    },
    /// Hear any octets, as if they had come over a link.
    Inject {
        /// The receiver.
        end: EndId,
        /// The link.
        link: LinkId,
        /// The octets, at most 4,096.
        octets: Bytes,
    },
    /// Acknowledge what a lane has received.
    AckOut {
        /// The receiver.
        end: EndId,
        /// The lane.
        lane: Lane,
    },
    /// Take an acknowledgement that the peer made.
    AckIn {
        /// The sender.
        end: EndId,
        /// Which, counted from 0; the latest where there is none.
        nth: Option<u32>,
    },
    /// Give all positions of a lane below one up, and ask the peer to move its window there.
    BarOut {
        /// The sender.
        end: EndId,
        /// The lane.
        lane: Lane,
        /// The first position that isn't given up.
        to: u32,
    },
    /// Take a request of the peer to move the window.
    BarIn {
        /// The receiver.
        end: EndId,
        /// Which, counted from 0; the latest where there is none.
        nth: Option<u32>,
    },
    /// Hold the next key: frames under it open from now on, and under the one before it.
    Install {
        /// The receiver.
        end: EndId,
    },
    /// Send under the next key, whose packet numbers begin at 1.
    Turn {
        /// The sender.
        end: EndId,
    },
    /// Switch the radio of a link on or off.
    Power {
        /// The end whose radio it is.
        end: EndId,
        /// The link.
        link: LinkId,
        /// Whether it is on from now on.
        on: bool,
    },
    /// Ask the peer for new mappings of TIDs to links.
    MapAsk {
        /// The end that asks.
        end: EndId,
        /// What it asks for: at most two entries.
        entries: MapEntries,
    },
    /// Tear the mappings of both directions down.
    MapTeardown {
        /// The end that does.
        end: EndId,
    },
    /// Give an ask up that no reply was taken of.
    GiveUp {
        /// The end that asked.
        end: EndId,
        /// What it asked for.
        what: Machine,
    },
}

/// A number is one of 32 bits.
fn test_number(nth: Option<u32>)
    ensures { InWord nth }
{}

/// A position is one of 32 bits.
fn test_position(pos: u32)
    ensures { pos < 2 ^ 32 }
{}

/// A key number is one of 16 bits.
fn test_key(key: u16)
    ensures { key < 2 ^ 16 }
{}

/// The bitmaps of an entry are those of eight TIDs, of 16 bits each.
fn test_entry(entry: &MapEntry) -> bool
    ensures fits { IsEntry entry.now }
    ensures holds { result ≡ true }
{
    test_change(&entry.change);
    true
}

/// The same of each.
fn test_entries(entries: &[MapEntry])
    ensures { AreEntries entries.now }
{
    entries.iter().all(test_entry);
}

impl Command {
    /// Tells that the links that it names have IDs below 15, and the numbers 32 bits, as their types say.
    pub fn test(&self)
        ensures { InRanges self.now }
    {
        match self {
            Command::Put { link, .. } => {
                link.get();
            }
            Command::Again { link, pos, .. } => {
                link.get();
                test_position(*pos);
            }
            Command::Deliver { link, nth, .. } => {
                link.get();
                test_number(*nth);
            }
            Command::Alter { link, nth, .. } => {
                link.get();
                test_number(*nth);
            }
            Command::Forge { link, key, .. } => {
                link.get();
                test_key(*key);
            }
            Command::Inject { link, .. } | Command::Power { link, .. } => {
                link.get();
            }
            Command::MapAsk { entries, .. } => test_entries(entries.as_slice()),
            Command::AckIn { nth, .. } => test_number(*nth),
            Command::BarOut { to, .. } => test_position(*to),
            Command::BarIn { nth, .. } => test_number(*nth),
            _ => (),
        }
    }

    /// The same command again.
    pub fn copy(&self, alloc: Global) -> Result<Command, Memory>
        ensures { IfOk result (λ c. c ≡ self.now) }
    {
        Ok(match self {
            Command::Queue { end, tid, body } => Command::Queue {
                end: *end,
                tid: *tid,
                body: Bytes::from_slice(alloc, body.as_slice())?,
            },
            Command::Reserve { end, lane } => Command::Reserve {
                end: *end,
                lane: *lane,
            },
            Command::Book { end } => Command::Book { end: *end },
            Command::Put { end, link } => Command::Put {
                end: *end,
                link: *link,
            },
            Command::Again {
                end,
                link,
                lane,
                pos,
            } => Command::Again {
                end: *end,
                link: *link,
                lane: *lane,
                pos: *pos,
            },
            Command::Deliver { end, link, nth } => Command::Deliver {
                end: *end,
                link: *link,
                nth: *nth,
            },
            Command::Alter {
                end,
                link,
                nth,
                number,
            } => Command::Alter {
                end: *end,
                link: *link,
                nth: *nth,
                number: *number,
            },
            Command::Forge {
                end,
                link,
                lane,
                key,
                pn,
                number,
                body,
            } => Command::Forge {
                end: *end,
                link: *link,
                lane: *lane,
                key: *key,
                pn: *pn,
                number: *number,
                body: Bytes::from_slice(alloc, body.as_slice())?,
            },
            Command::AckOut { end, lane } => Command::AckOut {
                end: *end,
                lane: *lane,
            },
            Command::AckIn { end, nth } => Command::AckIn {
                end: *end,
                nth: *nth,
            },
            Command::BarOut { end, lane, to } => Command::BarOut {
                end: *end,
                lane: *lane,
                to: *to,
            },
            Command::BarIn { end, nth } => Command::BarIn {
                end: *end,
                nth: *nth,
            },
            Command::Install { end } => Command::Install { end: *end },
            Command::Turn { end } => Command::Turn { end: *end },
            Command::Inject { end, link, octets } => Command::Inject {
                end: *end,
                link: *link,
                octets: Bytes::from_slice(alloc, octets.as_slice())?,
            },
            Command::Power { end, link, on } => Command::Power {
                end: *end,
                link: *link,
                on: *on,
            },
            Command::MapAsk { end, entries } => Command::MapAsk {
                end: *end,
                entries: List::from_slice(alloc, entries.as_slice())?,
            },
            Command::MapTeardown { end } => Command::MapTeardown { end: *end },
            Command::GiveUp { end, what } => Command::GiveUp {
                end: *end,
                what: *what,
            },
        })
    }
}
