//! Answers.

ghost use Rattle.std.specs.Prelude.{◌≡◌, ◌≤◌, length};
ghost use Rattle.wl_history.specs.Plain.{IsPlain, FitsIn};

use crate::lists::{Positions, PositionsRoom, SequenceNumbers};
use wl_elem::{Lane, Why};
use wl_number::Numbers;

/// Why a booking isn't sent over a link.
#[derive(Clone, Copy, Debug, PartialEq, Eq)]
pub enum KeptWhy {
    /// The link isn't set up at the sender.
    NotSetUp,
    /// The sender's radio is off on the link.
    Unpowered,
    /// The sender's agreed mapping doesn't map the lane to the link.
    Unmapped,
}

/// What a command is answered.
#[derive(Debug, Drop)]
pub enum Outcome {
    /// The MSDU is in the queue.
    Queued {
        /// Its position, from 0.
        pos: u32,
    },
    /// The hand holds a reserve.
    Reserved,
    /// The hand holds a reserve or a booking already.
    HandFull,
    /// Each body of the queue has its reserve.
    NothingQueued,
    /// The window has no room.
    WindowFull,
    /// The hand holds a booking.
    Booked {
        /// The lane of the reserve.
        lane: Lane,
        /// Position, key number and packet number.
        numbers: Numbers,
    },
    /// The hand holds no reserve.
    NoReserve,
    /// The last packet number of the key was used. The reserve was given back.
    Spent {
        /// The lane of the reserve.
        lane: Lane,
    },
    /// The frame was sent.
    Put {
        /// The lane of the booking.
        lane: Lane,
        /// Position, key number and packet number.
        numbers: Numbers,
        /// Whether it was sent before.
        retry: bool,
    },
    /// The booking may not go over this link, and stays.
    Kept {
        /// The lane of the booking.
        lane: Lane,
        /// Its position.
        pos: u32,
        /// Why.
        why: KeptWhy,
    },
    /// The hand holds no booking, the position isn't booked, or it is done.
    Nothing,
    /// The frame of the booking that was named was sent.
    PutAgain {
        /// Position, key number and packet number.
        numbers: Numbers,
        /// Whether it was sent before.
        retry: bool,
    },
    /// The booking that was named may not go over this link.
    KeptAgain {
        /// Why.
        why: KeptWhy,
    },
    /// There is no such frame or record.
    NotThere,
    /// The octets aren't a frame for this end.
    BadFrame {
        /// The refusal.
        why: Why,
        /// Its place in the octets.
        place: u32,
    },
    /// The receiver's radio is off on the link, or the link isn't set up there.
    LinkDown,
    /// An association frame of no use.
    Ignored,
    /// No key of the frame's key ID is held.
    NoKey,
    /// The payload doesn't open.
    NotOpened,
    /// The packet number isn't above that of the last body released.
    Replay,
    /// The sequence number lies behind the window.
    OldNumber,
    /// The sequence number is stored already.
    Double,
    /// The body was stored.
    Stored {
        /// Its lane.
        lane: Lane,
        /// The frame's sequence number.
        number: u16,
        /// The numbers of the sender's booking.
        numbers: Numbers,
        /// The positions released in this step, in order.
        up: Positions,
    },
    /// The lane is acknowledged.
    Acked {
        /// The window's start, modulo 4,096.
        start: u16,
        /// The sequence numbers stored, in window order.
        stored: SequenceNumbers,
    },
    /// The acknowledgement is older than the window.
    OldAck,
    /// The acknowledgement was taken.
    Done {
        /// How many positions are done since.
        count: u32,
    },
    /// The positions were given up, and a request was made.
    Barred {
        /// The first position that isn't done, modulo 4,096.
        start: u16,
    },
    /// One of the positions isn't booked.
    NotBooked,
    /// All of the positions are done already.
    Behind,
    /// The request is no further than the window's start, or 2,048 and more ahead of it.
    OldBar,
    /// The window was moved.
    Moved {
        /// Its lane.
        lane: Lane,
        /// The start that was asked for, modulo 4,096.
        start: u16,
        /// The positions released in this step, in order.
        up: Positions,
    },
    /// The next key is held.
    Installed {
        /// Its number.
        key: u16,
    },
    /// The next key is the one that is sent under.
    Turned {
        /// Its number.
        key: u16,
    },
    /// The key is the last one, 65,535: there is none after it.
    KeysSpent,
    /// The radio was switched.
    Set,
    /// A request was queued for the peer.
    Asked {
        /// Its token.
        token: u8,
    },
    /// An own request stands.
    Busy {
        /// Its token.
        token: u8,
    },
    /// What is to be asked for isn't valid, or no link is set up.
    NotValid,
    /// A message that no reply is awaited to was queued for the peer.
    Sent,
    /// The own request was given up.
    Given {
        /// Its token.
        token: u8,
    },
}

impl Outcome {
    /// The same answer again, of one that carries no list. It takes no memory.
    pub fn again(&self) -> Outcome
        requires { IsPlain self.now }
        ensures { result ≡ self.now }
    {
        match self {
            Outcome::Queued { pos } => Outcome::Queued { pos: *pos },
            Outcome::Reserved => Outcome::Reserved,
            Outcome::HandFull => Outcome::HandFull,
            Outcome::NothingQueued => Outcome::NothingQueued,
            Outcome::WindowFull => Outcome::WindowFull,
            Outcome::Booked { lane, numbers } => Outcome::Booked {
                lane: *lane,
                numbers: *numbers,
            },
            Outcome::NoReserve => Outcome::NoReserve,
            Outcome::Spent { lane } => Outcome::Spent { lane: *lane },
            Outcome::Put {
                lane,
                numbers,
                retry,
            } => Outcome::Put {
                lane: *lane,
                numbers: *numbers,
                retry: *retry,
            },
            Outcome::Kept { lane, pos, why } => Outcome::Kept {
                lane: *lane,
                pos: *pos,
                why: *why,
            },
            Outcome::Nothing => Outcome::Nothing,
            Outcome::PutAgain { numbers, retry } => Outcome::PutAgain {
                numbers: *numbers,
                retry: *retry,
            },
            Outcome::KeptAgain { why } => Outcome::KeptAgain { why: *why },
            Outcome::NotThere => Outcome::NotThere,
            Outcome::BadFrame { why, place } => Outcome::BadFrame {
                why: *why,
                place: *place,
            },
            Outcome::LinkDown => Outcome::LinkDown,
            Outcome::Ignored => Outcome::Ignored,
            Outcome::NoKey => Outcome::NoKey,
            Outcome::NotOpened => Outcome::NotOpened,
            Outcome::Replay => Outcome::Replay,
            Outcome::OldNumber => Outcome::OldNumber,
            Outcome::Double => Outcome::Double,
            Outcome::Stored { .. } => unreachable!(),
            Outcome::Acked { .. } => unreachable!(),
            Outcome::OldAck => Outcome::OldAck,
            Outcome::Done { count } => Outcome::Done { count: *count },
            Outcome::Barred { start } => Outcome::Barred { start: *start },
            Outcome::NotBooked => Outcome::NotBooked,
            Outcome::Behind => Outcome::Behind,
            Outcome::OldBar => Outcome::OldBar,
            Outcome::Moved { .. } => unreachable!(),
            Outcome::Installed { key } => Outcome::Installed { key: *key },
            Outcome::Turned { key } => Outcome::Turned { key: *key },
            Outcome::KeysSpent => Outcome::KeysSpent,
            Outcome::Set => Outcome::Set,
            Outcome::Asked { token } => Outcome::Asked { token: *token },
            Outcome::Busy { token } => Outcome::Busy { token: *token },
            Outcome::NotValid => Outcome::NotValid,
            Outcome::Sent => Outcome::Sent,
            Outcome::Given { token } => Outcome::Given { token: *token },
        }
    }

    /// The same answer again, in room that was taken before. It takes no memory.
    pub fn again_in(&self, room: PositionsRoom) -> Outcome
        requires { FitsIn room self.now }
        ensures { result ≡ self.now }
    {
        match self {
            Outcome::Stored {
                lane,
                number,
                numbers,
                up,
            } => Outcome::Stored {
                lane: *lane,
                number: *number,
                numbers: *numbers,
                up: up.copy_into(room),
            },
            Outcome::Moved { lane, start, up } => Outcome::Moved {
                lane: *lane,
                start: *start,
                up: up.copy_into(room),
            },
            other => other.again(),
        }
    }
}
