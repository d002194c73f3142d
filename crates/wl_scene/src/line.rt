//! The line of a step.

ghost use Rattle.std.specs.Prelude.{◌≡◌, ◌∷◌, [], codes, OnOk, IfOk};
ghost use Rattle.serde_json.specs.Data.{object, string, put};
ghost use Rattle.wl_history.specs.declared.outcome.Outcome.TheVariants.{Kept, BadFrame};
ghost use Rattle.wl_scene.specs.Built.{built};
ghost use Rattle.wl_scene.specs.Objects.{with_members};
ghost use Rattle.wl_scene.specs.Lines.{end_name, kept_name, machine_name, command_name, answer_name, end_member, lane_member, link_member, nth_data, booking_members, data_members, heard_members, setting_members, command_members, answer_members, step_data};

use crate::object::Object;
use std::alloc::Global;
use wl_elem::{EndId, Lane, LinkId, Memory, Why};
use wl_history::{Command, KeptWhy, Machine, Outcome, Step};
use wl_number::Numbers;

/// The name of an end.
fn end_text(end: EndId) -> &'static str
    ensures { result.now ≡ end_name end }
{
    match end {
        EndId::Ap => "ap",
        EndId::Sta => "sta",
    }
}

/// Why a booking was kept, as a word.
fn kept_text(why: KeptWhy) -> &'static str
    ensures { result.now ≡ kept_name why }
{
    match why {
        KeptWhy::NotSetUp => "notsetup",
        KeptWhy::Unpowered => "unpowered",
        KeptWhy::Unmapped => "unmapped",
    }
}

/// What an end asked for, as a word.
fn machine_text(what: Machine) -> &'static str
    ensures { result.now ≡ machine_name what }
{
    match what {
        Machine::Map => "map",
    }
}

/// The name of a command.
fn command_text(command: &Command) -> &'static str
    ensures { result.now ≡ command_name command.now }
{
    match command {
        Command::Queue { .. } => "queue",
        Command::Reserve { .. } => "reserve",
        Command::Book { .. } => "book",
        Command::Put { .. } => "put",
        Command::Again { .. } => "again",
        Command::Deliver { .. } => "deliver",
        Command::Alter { .. } => "alter",
        Command::Forge { .. } => "forge",
        Command::Inject { .. } => "inject",
        Command::AckOut { .. } => "ack_out",
        Command::AckIn { .. } => "ack_in",
        Command::BarOut { .. } => "bar_out",
        Command::BarIn { .. } => "bar_in",
        Command::Install { .. } => "install",
        Command::Turn { .. } => "turn",
        Command::Power { .. } => "power",
        Command::MapAsk { .. } => "map_ask",
        Command::MapTeardown { .. } => "map_teardown",
        Command::GiveUp { .. } => "give_up",
    }
}

/// The name of an answer.
fn answer_text(outcome: &Outcome) -> &'static str
    ensures { result.now ≡ answer_name outcome.now }
{
    match outcome {
        Outcome::Queued { .. } => "queued",
        Outcome::Reserved => "reserved",
        Outcome::HandFull => "handfull",
        Outcome::NothingQueued => "nothingqueued",
        Outcome::WindowFull => "windowfull",
        Outcome::Booked { .. } => "booked",
        Outcome::NoReserve => "noreserve",
        Outcome::Spent { .. } => "spent",
        Outcome::Put { .. } => "put",
        Outcome::Kept { .. } => "kept",
        Outcome::Nothing => "nothing",
        Outcome::PutAgain { .. } => "put",
        Outcome::KeptAgain { .. } => "kept",
        Outcome::NotThere => "notthere",
        Outcome::BadFrame { .. } => "badframe",
        Outcome::LinkDown => "linkdown",
        Outcome::Ignored => "ignored",
        Outcome::NoKey => "nokey",
        Outcome::NotOpened => "notopened",
        Outcome::Replay => "replay",
        Outcome::OldNumber => "oldnumber",
        Outcome::Double => "double",
        Outcome::Stored { .. } => "stored",
        Outcome::Acked { .. } => "acked",
        Outcome::OldAck => "oldack",
        Outcome::Done { .. } => "done",
        Outcome::Barred { .. } => "barred",
        Outcome::NotBooked => "notbooked",
        Outcome::Behind => "behind",
        Outcome::OldBar => "oldbar",
        Outcome::Moved { .. } => "moved",
        Outcome::Installed { .. } => "installed",
        Outcome::Turned { .. } => "turned",
        Outcome::KeysSpent => "keysspent",
        Outcome::Set => "set",
        Outcome::Asked { .. } => "asked",
        Outcome::Busy { .. } => "busy",
        Outcome::NotValid => "notvalid",
        Outcome::Sent => "sent",
        Outcome::Given { .. } => "given",
    }
}

impl Object {
    /// Puts the end that acts in.
    fn put_end(&mut self, end: EndId) -> Result<(), Memory>
        ensures { OnOk result (built self.new ≡ with_members (end_member end ∷ []) (built self.old)) }
    {
        self.put_text("end", end_text(end))
    }

    /// Puts a lane in: a TID by its number, management by its letter.
    fn put_lane(&mut self, lane: Lane) -> Result<(), Memory>
        ensures { OnOk result (built self.new ≡ with_members (lane_member lane ∷ []) (built self.old)) }
    {
        match lane {
            Lane::Tid(tid) => self.put_number("lane", u64::from(tid.get())),
            Lane::Management => self.put_text("lane", "m"),
        }
    }

    /// Puts a link in.
    fn put_link(&mut self, link: LinkId) -> Result<(), Memory>
        ensures { OnOk result (built self.new ≡ with_members (link_member link ∷ []) (built self.old)) }
    {
        self.put_number("link", u64::from(link.get()))
    }

    /// Puts the end that acts in, and the link.
    fn put_over(&mut self, end: EndId, link: LinkId) -> Result<(), Memory>
        ensures { OnOk result (built self.new ≡ with_members (end_member end ∷ link_member link ∷ []) (built self.old)) }
    {
        self.put_end(end)?;
        self.put_link(link)
    }

    /// Puts the number of a frame, an acknowledgement or a request in; null stands for the latest.
    fn put_nth(&mut self, nth: Option<u32>) -> Result<(), Memory>
        ensures { OnOk result (built self.new ≡ put (codes "nth") (nth_data nth) (built self.old)) }
    {
        match nth {
            Some(n) => self.put_number("nth", u64::from(n)),
            None => self.put_null("nth"),
        }
    }

    /// Puts the numbers of a booking in.
    fn put_booking(&mut self, lane: Lane, numbers: Numbers) -> Result<(), Memory>
        ensures { OnOk result (built self.new ≡ with_members (booking_members lane numbers) (built self.old)) }
    {
        self.put_lane(lane)?;
        self.put_number("pos", u64::from(numbers.pos))?;
        self.put_number("key", u64::from(numbers.key))?;
        self.put_number("pn", numbers.pn)
    }

    /// Puts the booking that was kept in, and why.
    fn put_kept(&mut self, lane: Lane, pos: u32, why: KeptWhy) -> Result<(), Memory>
        ensures { OnOk result (built self.new ≡ with_members (answer_members (Kept lane pos why)) (built self.old)) }
    {
        self.put_lane(lane)?;
        self.put_number("pos", u64::from(pos))?;
        self.put_text("why", kept_text(why))
    }

    /// Puts in why octets were refused, and where.
    fn put_refusal(&mut self, why: Why, place: u32) -> Result<(), Memory>
        ensures { OnOk result (built self.new ≡ with_members (answer_members (BadFrame why place)) (built self.old)) }
    {
        self.put_text("why", why.name())?;
        self.put_number("place", u64::from(place))
    }

    /// Puts the end that acts in, and the lane.
    fn put_on(&mut self, end: EndId, lane: Lane) -> Result<(), Memory>
        ensures { OnOk result (built self.new ≡ with_members (end_member end ∷ lane_member lane ∷ []) (built self.old)) }
    {
        self.put_end(end)?;
        self.put_lane(lane)
    }

    /// Puts what is shown of a command for data or acknowledgements in. Of another it puts nothing in.
    fn put_data(&mut self, command: &Command) -> Result<(), Memory>
        ensures { OnOk result (built self.new ≡ with_members (data_members command.now) (built self.old)) }
    {
        match command {
            Command::Queue { end, tid, body } => {
                self.put_end(*end)?;
                self.put_number("tid", u64::from(tid.get()))?;
                self.put_number("size", body.as_slice().len() as u64)
            }
            Command::Reserve { end, lane } | Command::AckOut { end, lane } => {
                self.put_on(*end, *lane)
            }
            Command::Book { end } => self.put_end(*end),
            Command::Put { end, link } => self.put_over(*end, *link),
            Command::Again {
                end,
                link,
                lane,
                pos,
            } => {
                self.put_over(*end, *link)?;
                self.put_lane(*lane)?;
                self.put_number("pos", u64::from(*pos))
            }
            Command::AckIn { end, nth } | Command::BarIn { end, nth } => {
                self.put_end(*end)?;
                self.put_nth(*nth)
            }
            Command::BarOut { end, lane, to } => {
                self.put_on(*end, *lane)?;
                self.put_number("to", u64::from(*to))
            }
            _ => Ok(()),
        }
    }

    /// Puts what is shown of a command to hear something in. Of another it puts nothing in.
    fn put_heard(&mut self, command: &Command) -> Result<(), Memory>
        ensures { OnOk result (built self.new ≡ with_members (heard_members command.now) (built self.old)) }
    {
        match command {
            Command::Deliver { end, link, nth } => {
                self.put_over(*end, *link)?;
                self.put_nth(*nth)
            }
            Command::Inject { end, link, octets } => {
                self.put_over(*end, *link)?;
                self.put_number("size", octets.as_slice().len() as u64)
            }
            Command::Alter {
                end,
                link,
                nth,
                number,
            } => {
                self.put_over(*end, *link)?;
                self.put_nth(*nth)?;
                self.put_number("number", u64::from(*number))
            }
            Command::Forge { end, link, .. } => self.put_over(*end, *link),
            _ => Ok(()),
        }
    }

    /// Puts what is shown of a command for keys, radios or requests in. Of another it puts nothing in.
    fn put_setting(&mut self, command: &Command) -> Result<(), Memory>
        ensures { OnOk result (built self.new ≡ with_members (setting_members command.now) (built self.old)) }
    {
        match command {
            Command::Install { end }
            | Command::Turn { end }
            | Command::MapAsk { end, .. }
            | Command::MapTeardown { end } => self.put_end(*end),
            Command::Power { end, link, on } => {
                self.put_over(*end, *link)?;
                self.put_bool("on", *on)
            }
            Command::GiveUp { end, what } => {
                self.put_end(*end)?;
                self.put_text("what", machine_text(*what))
            }
            _ => Ok(()),
        }
    }

    /// Puts what is shown of a command in.
    #[tactic(auto, using(crate::proofs::Members::merged))]
    fn put_command(&mut self, command: &Command) -> Result<(), Memory>
        ensures { OnOk result (built self.new ≡ with_members (command_members command.now) (built self.old)) }
    {
        self.put_data(command)?;
        self.put_heard(command)?;
        self.put_setting(command)
    }

    /// Puts what is shown of an answer in.
    fn put_answer(&mut self, outcome: &Outcome) -> Result<(), Memory>
        ensures { OnOk result (built self.new ≡ with_members (answer_members outcome.now) (built self.old)) }
    {
        match outcome {
            Outcome::Queued { pos } => self.put_number("pos", u64::from(*pos)),
            Outcome::Booked { lane, numbers } => self.put_booking(*lane, *numbers),
            Outcome::Spent { lane } => self.put_lane(*lane),
            Outcome::Put {
                lane,
                numbers,
                retry,
            } => {
                self.put_bool("retry", *retry)?;
                self.put_booking(*lane, *numbers)
            }
            Outcome::Kept { lane, pos, why } => self.put_kept(*lane, *pos, *why),
            Outcome::PutAgain { numbers, retry } => {
                self.put_bool("retry", *retry)?;
                self.put_number("key", u64::from(numbers.key))?;
                self.put_number("pn", numbers.pn)
            }
            Outcome::KeptAgain { why } => self.put_text("why", kept_text(*why)),
            Outcome::BadFrame { why, place } => self.put_refusal(*why, *place),
            Outcome::Stored {
                lane,
                number,
                up,
                ..
            } => {
                self.put_lane(*lane)?;
                self.put_number("number", u64::from(*number))?;
                self.put_u32s("up", up.as_slice())
            }
            Outcome::Acked { start, stored } => {
                self.put_number("start", u64::from(*start))?;
                self.put_u16s("stored", stored.as_slice())
            }
            Outcome::Done { count } => self.put_number("count", u64::from(*count)),
            Outcome::Barred { start } => self.put_number("start", u64::from(*start)),
            Outcome::Moved { up, .. } => self.put_u32s("up", up.as_slice()),
            Outcome::Installed { key } | Outcome::Turned { key } => {
                self.put_number("key", u64::from(*key))
            }
            Outcome::Asked { token } | Outcome::Busy { token } | Outcome::Given { token } => {
                self.put_number("token", u64::from(*token))
            }
            _ => Ok(()),
        }
    }

    /// What is shown of a step: its thread, the command and the answer, each with its members.
    #[tactic(auto, using(crate::proofs::Members::merged))]
    pub fn of_step(alloc: Global, step: &Step) -> Result<Object, Memory>
        ensures { IfOk result (λ o. object (built o) ≡ step_data step.now) }
    {
        let mut line = Object::new(alloc);
        line.put_number("t", u64::from(step.thread))?;
        line.put_text("do", command_text(&step.command))?;
        line.put_text("out", answer_text(&step.outcome))?;
        line.put_command(&step.command)?;
        line.put_answer(&step.outcome)?;
        Ok(line)
    }
}
