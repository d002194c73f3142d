//! Scripts.

ghost use Rattle.std.specs.Prelude.{◌≡◌, IfOk};
ghost use Rattle.wl_history.specs.Scripts.{times_of, body_of, command_at, goes_on};

use crate::command::Command;
use crate::outcome::Outcome;
use std::alloc::Global;
use wl_elem::{EndId, Lane, LinkId, List, Memory};

/// What a send asks for next.
#[derive(Clone, Copy, Debug, PartialEq, Eq)]
pub enum Stage {
    /// A reserve.
    Reserving,
    /// A booking of the reserve.
    Booking,
    /// A put of the booking.
    Putting,
}

/// One thing that a script asks for.
#[derive(Debug, Drop)]
pub enum Plain {
    /// A command.
    Do(Command),
    /// A reserve; where that is granted, a booking; where that is made, a put.
    Send {
        /// The sender.
        end: EndId,
        /// The link.
        link: LinkId,
        /// The lane.
        lane: Lane,
    },
}

/// A line of a script.
#[derive(Debug, Drop)]
pub enum Item {
    /// What is asked for once.
    Once(Plain),
    /// What is asked for again and again.
    Loop {
        /// How often.
        times: u32,
        /// What is asked for each time, in order.
        body: Plains,
    },
}

/// What a loop asks for each time, in order.
pub type Plains = List<Plain>;

/// What a thread asks for, in order.
pub type Script = List<Item>;

impl Plain {
    /// The command that it asks for at a stage.
    pub(crate) fn command(&self, alloc: Global, stage: Stage) -> Result<Command, Memory>
        ensures { IfOk result (λ c. c ≡ command_at stage self.now) }
    {
        match self {
            Plain::Do(command) => command.copy(alloc),
            Plain::Send { end, link, lane } => Ok(match stage {
                Stage::Reserving => Command::Reserve {
                    end: *end,
                    lane: *lane,
                },
                Stage::Booking => Command::Book { end: *end },
                Stage::Putting => Command::Put {
                    end: *end,
                    link: *link,
                },
            }),
        }
    }

    /// The stage at which it goes on behind an answer. None where it is over.
    pub(crate) fn goes_on(&self, stage: Stage, outcome: &Outcome) -> Option<Stage>
        ensures { result ≡ goes_on self.now stage outcome.now }
    {
        match (self, stage, outcome) {
            (Plain::Send { .. }, Stage::Reserving, Outcome::Reserved) => Some(Stage::Booking),
            (Plain::Send { .. }, Stage::Booking, Outcome::Booked { .. }) => Some(Stage::Putting),
            _ => None,
        }
    }
}

impl Item {
    /// How often it is done.
    pub(crate) fn times(&self) -> u32
        ensures { result ≡ times_of self.now }
    {
        match self {
            Item::Once(_) => 1,
            Item::Loop { times, .. } => *times,
        }
    }

    /// What is asked for each time.
    pub(crate) fn body(&self) -> &[Plain]
        ensures { result.now ≡ body_of self.now }
    {
        match self {
            Item::Once(plain) => std::slice::from_ref(plain),
            Item::Loop { body, .. } => body.as_slice(),
        }
    }
}
