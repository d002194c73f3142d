//! Two ends, what they acknowledged, and what they asked of each other.

ghost use Rattle.std.specs.Prelude.{◌≡◌, true, ◌-◌, ◌^◌, ◌<◌, ◌≤◌, length, option_copied, option_map, Some, Ok, Err, IfOk, OnOk, IfErr, OnErr};
ghost use Rattle.std.specs.Result.{IsErr};
ghost use Rattle.wl_elem.specs.Element.{msdu_limit};
ghost use Rattle.wl_elem.specs.Lanes.{lane_index, peer_of};
ghost use Rattle.wl_history.specs.declared.opened.Opened.{Opened};
ghost use Rattle.wl_history.specs.declared.outcome.Outcome.TheVariants.{Queued as IsQueued, Acked as IsAcked, Set as IsSet};
ghost use Rattle.wl_history.specs.Answers.{reserve_answer, book_answer, put_of, aired_octets, booked_at, again_of, octets_again, ack_out_answer, ack_answer, acks_made, given_answer, bar_out_answer, bar_answer, bars_made, install_answer, turn_answer};
ghost use Rattle.wl_history.specs.EndState.{lane_at, with_made, after_queue, after_reserve, after_book, after_put, after_again, after_taken, after_heard, after_bar_out, after_request, after_install, after_turn};
ghost use Rattle.wl_history.specs.Machines.{switched};
ghost use Rattle.wl_history.specs.Ends.{send_size, is_link};
ghost use Rattle.wl_history.specs.Hearing.{with_number, forged};
ghost use Rattle.wl_history.specs.Hands.{hand_of};
ghost use Rattle.wl_history.specs.Legal.{HeardIf, ForgedIf, IsAnswer, Forges, IsSealable};
ghost use Rattle.wl_history.specs.Plain.{IsPlain};
ghost use Rattle.wl_air.specs.Acting.{CanDo, IsHearFault, IsStepFault};
ghost use Rattle.wl_air.specs.World.{IsRoomy};
ghost use Rattle.wl_air.specs.declared.fault.StepFault.TheVariants.{Memory as IsMemory};

use crate::fault::StepFault;
use crate::heard::{aired, altered, hear_if, slice_of, take_request};
use crate::records::Records;
use std::alloc::Global;
use std::marker::Model;
use wl_elem::{Bytes, EndId, Lane, LinkId, Memory, Tid};
use wl_end::End;
use wl_frame::Sealer;
use wl_history::{Ack, Bar, Command, Outcome, SequenceNumbers, Start};
use wl_number::Numbers;
use wl_window::MoveRefusal;

/// Two ends, and what each acknowledged and asked of the other.
#[derive(Debug, Drop)]
pub struct Air {
    /// The AP MLD.
    ap: End,
    /// The station MLD.
    sta: End,
    /// What the AP acknowledged.
    ap_acks: Records<Ack>,
    /// What the station acknowledged.
    sta_acks: Records<Ack>,
    /// The AP's requests to move a window.
    ap_bars: Records<Bar>,
    /// The station's requests to move a window.
    sta_bars: Records<Bar>,
}

impl Model for Air {
    ghost use Rattle.wl_history.specs.AirState.{AirState};

    ghost Value = { AirState };

    ghost view = { λ a. record { ap = a.ap; sta = a.sta; ap_acks = a.ap_acks; sta_acks = a.sta_acks; ap_bars = a.ap_bars; sta_bars = a.sta_bars } };
}

/// The answer to an acknowledgement that was made.
fn acked(alloc: Global, ack: &Ack) -> Result<Outcome, Memory>
    ensures { IfOk result (λ o. o ≡ IsAcked ack.now.start ack.now.stored) }
{
    let stored = SequenceNumbers::from_slice(alloc, ack.stored.as_slice())?;
    Ok(Outcome::Acked {
        start: ack.start,
        stored,
    })
}

/// The answer to an acknowledgement that was made, twice: for the caller and for the journal.
fn acked_twice(alloc: Global, ack: &Ack) -> Result<(Outcome, Outcome), Memory>
    ensures answer { IfOk result (λ o. o.0 ≡ IsAcked ack.now.start ack.now.stored) }
    ensures again { IfOk result (λ o. o.1 ≡ o.0) }
{
    let outcome = acked(alloc, ack)?;
    match acked(alloc, ack) {
        Ok(again) => Ok((outcome, again)),
        Err(fault) => Err(fault),
    }
}

/// An acknowledgement of a lane of an end, which is added to those that it made.
fn acknowledge(
    alloc: Global,
    end: &End,
    lane: &Lane,
    acks: &mut Records<Ack>,
) -> Result<(Outcome, Outcome), Memory>
    ensures answer { IfOk result (λ o. o.0 ≡ ack_out_answer (lane_at end.now (lane_index lane.now)).window) }
    ensures again { IfOk result (λ o. o.1 ≡ o.0) }
    ensures after { IfOk result (λ o. acks.new ≡ acks_made lane.now o.0 acks.old) }
    ensures unchanged { OnErr result (acks.new ≡ acks.old) }
{
    let ack = end.ack_out(*lane)?;
    let both = acked_twice(alloc, &ack)?;
    match acks.push(ack) {
        Ok(()) => Ok(both),
        Err(fault) => Err(fault),
    }
}

/// Lets an end queue a copy of a body.
fn queue(alloc: Global, end: &mut End, tid: Tid, body: &Bytes) -> Result<Outcome, Memory>
    requires some { 1 ≤ length body.now }
    requires limit { length body.now ≤ msdu_limit }
    requires room { length (lane_at end.old tid).queue < 2 ^ 32 - 8192 }
    ensures answer { IfOk result (λ o. o ≡ IsQueued (length (lane_at end.old tid).queue)) }
    ensures plain { IfOk result IsPlain }
    ensures after { IfOk result (λ o. end.new ≡ after_queue tid body.now end.old) }
    ensures unchanged { OnErr result (end.new ≡ end.old) }
{
    let body = Bytes::from_slice(alloc, body.as_slice())?;
    let pos = end.queue(tid, body)?;
    Ok(Outcome::Queued { pos })
}

/// Lets an end take an acknowledgement, where it is there.
fn take(end: &mut End, ack: Option<&Ack>) -> Outcome
    ensures answer { result ≡ ack_answer (option_copied ack.entry) end.old }
    ensures plain { IsPlain result }
    ensures after { end.new ≡ after_taken (option_copied ack.entry) end.old }
{
    let Some(ack) = ack else {
        return Outcome::NotThere;
    };
    match end.ack_in(ack) {
        Some(count) => Outcome::Done { count },
        None => Outcome::OldAck,
    }
}

/// Why positions can't be given up, as an answer.
fn refused(why: MoveRefusal) -> Outcome
    ensures answer { result ≡ given_answer (Err why) }
    ensures plain { IsPlain result }
{
    match why {
        MoveRefusal::NotBooked => Outcome::NotBooked,
        MoveRefusal::Behind => Outcome::Behind,
    }
}

/// What stands for a request of a lane until it is made.
fn unmade(lane: Lane) -> Bar
    ensures { result.lane ≡ lane }
{
    Bar { lane, start: 0 }
}

/// Lets an end give positions of a lane up, and adds the request to those that it made.
fn bar(end: &mut End, lane: &Lane, to: u32, bars: &mut Records<Bar>) -> Result<Outcome, Memory>
    ensures answer { IfOk result (λ o. o ≡ bar_out_answer lane.now to end.old) }
    ensures plain { IfOk result IsPlain }
    ensures after { OnOk result (end.new ≡ after_bar_out lane.now to end.old) }
    ensures bars { IfOk result (λ o. bars.new ≡ bars_made lane.now o bars.old) }
    ensures unchanged { OnErr result (end.new ≡ end.old) }
    ensures same_bars { OnErr result (bars.new ≡ bars.old) }
{
    // The room for the request is taken first: what was given up can't be undone.
    bars.push(unmade(*lane))?;
    match end.bar_out(*lane, to) {
        Ok(made) => {
            let start = made.start;
            bars.settle(made);
            Ok(Outcome::Barred { start })
        }
        Err(why) => {
            bars.take_back();
            Ok(refused(why))
        }
    }
}

/// Lets an end hold the next key.
fn install(end: &mut End) -> Outcome
    ensures answer { result ≡ install_answer end.old.setup.keys }
    ensures plain { IsPlain result }
    ensures after { end.new ≡ after_install result end.old }
{
    match end.install() {
        Ok(key) => Outcome::Installed { key },
        Err(_) => Outcome::KeysSpent,
    }
}

/// Lets an end turn to the next key.
fn turn(end: &mut End) -> Outcome
    ensures answer { result ≡ turn_answer end.old.numbers }
    ensures plain { IsPlain result }
    ensures after { end.new ≡ after_turn result end.old }
{
    match end.turn() {
        Ok(key) => Outcome::Turned { key },
        Err(_) => Outcome::KeysSpent,
    }
}

/// Lets an end switch a radio.
fn power(end: &mut End, link: LinkId, on: bool) -> Outcome
    ensures answer { result ≡ IsSet }
    ensures plain { IsPlain result }
    ensures after { end.new ≡ with_made (switched link on end.old.setup) end.old }
{
    end.power(link, on);
    Outcome::Set
}

/// The same answer twice: for the caller and for the journal.
fn twice(outcome: Outcome) -> (Outcome, Outcome)
    requires { IsPlain outcome }
    ensures one { result.0 ≡ outcome }
    ensures other { result.1 ≡ outcome }
{
    let again = outcome.again();
    (outcome, again)
}

/// An answer twice, where there was memory for what it answers.
fn both(answer: Result<Outcome, Memory>) -> Result<(Outcome, Outcome), StepFault>
    requires { IfOk answer IsPlain }
    ensures one { IfOk result (λ o. answer ≡ Ok o.0) }
    ensures again { IfOk result (λ o. o.1 ≡ o.0) }
    ensures fault { IfErr result (λ fault. fault ≡ IsMemory) }
    ensures none { OnErr result (IsErr answer) }
{
    match answer {
        Ok(outcome) => Ok(twice(outcome)),
        Err(_) => Err(StepFault::Memory),
    }
}

impl Air {
    ghost use Rattle.std.specs.Borrow.{sem};
    ghost use Rattle.wl_air.specs.Lending.{LendsEnd};
    ghost use Rattle.wl_elem.specs.declared.lane.EndId.{EndId};
    ghost use Rattle.wl_history.specs.AirState.{end_of, acks_of, bars_of, with_end, with_acks, with_bars, ack_named, bar_named, octets_named, begun, after};
    ghost use Rattle.wl_air.specs.Air.{AreJoined, CanStart, KnowsPeer};

    /// Two ends that did nothing yet. `Memory` where there was none for their windows.
    ///
    /// Conditions, for each: the window is 1 to 256, and the first packet number 1 to 2^48 - 1.
    pub fn new(alloc: Global, start: &Start) -> Result<Air, Memory>
        requires ap { CanStart start.now.ap }
        requires sta { CanStart start.now.sta }
        ensures begun { IfOk result (λ a. a ≡ begun start.now) }
    {
        let ap = End::new(alloc, &start.ap)?;
        let sta = End::new(alloc, &start.sta)?;
        Ok(Air {
            ap,
            sta,
            ap_acks: Records::new(alloc),
            sta_acks: Records::new(alloc),
            ap_bars: Records::new(alloc),
            sta_bars: Records::new(alloc),
        })
    }

    /// An end.
    pub fn end(&self, end: EndId) -> &End
        ensures { result.now ≡ end_of self.now end }
    {
        match end {
            EndId::Ap => &self.ap,
            EndId::Sta => &self.sta,
        }
    }

    /// An end, to be changed.
    fn end_mut(&mut self, end: EndId) -> &mut End
        ensures* writes_back { sem 𝓛 (LendsEnd self.entry end result) }
        ensures value { result.now ≡ end_of self.old end }
    {
        match end {
            EndId::Ap => &mut self.ap,
            EndId::Sta => &mut self.sta,
        }
    }

    /// An acknowledgement of a lane, which is kept for the peer.
    fn ack_out(
        &mut self,
        alloc: Global,
        end: EndId,
        lane: &Lane,
    ) -> Result<(Outcome, Outcome), Memory>
        ensures answer { IfOk result (λ o. (o.0 ≡ ack_out_answer (lane_at (end_of self.old end) (lane_index lane.now)).window) × (o.1 ≡ o.0)) }
        ensures after { IfOk result (λ o. self.new ≡ with_acks end (acks_made lane.now o.0 (acks_of self.old end)) self.old) }
        ensures unchanged { OnErr result (self.new ≡ self.old) }
    {
        match end {
            EndId::Ap => acknowledge(alloc, &self.ap, lane, &mut self.ap_acks),
            EndId::Sta => acknowledge(alloc, &self.sta, lane, &mut self.sta_acks),
        }
    }

    /// Lets an end take the acknowledgement of its peer of this number, or the latest.
    ///
    /// NotThere where the peer made none such, OldAck where it is old; they change nothing. It takes no
    /// memory.
    fn ack_in(&mut self, end: EndId, nth: Option<u32>) -> Outcome
        ensures plain { IsPlain result }
        ensures answer { result ≡ ack_answer (ack_named self.old end nth) (end_of self.old end) }
        ensures after { self.new ≡ with_end end (after_taken (ack_named self.old end nth) (end_of self.old end)) self.old }
    {
        match end {
            EndId::Ap => take(&mut self.ap, self.sta_acks.named(nth)),
            EndId::Sta => take(&mut self.sta, self.ap_acks.named(nth)),
        }
    }

    /// Lets an end give positions of a lane up. The request is kept for the peer.
    fn bar_out(&mut self, end: EndId, lane: &Lane, to: u32) -> Result<Outcome, Memory>
        ensures answer { IfOk result (λ o. o ≡ bar_out_answer lane.now to (end_of self.old end)) }
        ensures plain { IfOk result IsPlain }
        ensures after { IfOk result (λ o. self.new ≡ with_bars end (bars_made lane.now o (bars_of self.old end)) (with_end end (after_bar_out lane.now to (end_of self.old end)) self.old)) }
        ensures unchanged { OnErr result (self.new ≡ self.old) }
    {
        match end {
            EndId::Ap => bar(&mut self.ap, lane, to, &mut self.ap_bars),
            EndId::Sta => bar(&mut self.sta, lane, to, &mut self.sta_bars),
        }
    }

    /// Lets an end take the request of its peer of this number, or the latest. The answer comes twice: for
    /// the caller and for the journal.
    fn bar_in(
        &mut self,
        alloc: Global,
        end: EndId,
        nth: Option<u32>,
    ) -> Result<(Outcome, Outcome), Memory>
        requires roomy { IsRoomy (end_of self.old end) }
        ensures answer { IfOk result (λ o. o.0 ≡ bar_answer (bar_named self.old end nth) (end_of self.old end)) }
        ensures again { IfOk result (λ o. o.1 ≡ o.0) }
        ensures after { OnOk result (self.new ≡ with_end end (after_request (bar_named self.old end nth) (end_of self.old end)) self.old) }
        ensures unchanged { OnErr result (self.new ≡ self.old) }
    {
        match end {
            EndId::Ap => take_request(alloc, &mut self.ap, self.sta_bars.named(nth)),
            EndId::Sta => take_request(alloc, &mut self.sta, self.ap_bars.named(nth)),
        }
    }

    /// Lets an end hear the frame of its peer of this number on a link, from 0, or the latest there. The
    /// answer comes twice: for the caller and for the journal.
    ///
    /// NotThere where there is no such frame; else what `End::peek` and `End::hear` say of it. `Forged`
    /// exactly where it opens and the peer has no booking of what it opens to. After an error nothing
    /// has changed.
    fn deliver<Z: Sealer>(
        &mut self,
        alloc: Global,
        end: EndId,
        link: LinkId,
        nth: Option<u32>,
        z: &Z,
    ) -> Result<(Outcome, Outcome), StepFault>
        requires roomy { IsRoomy (end_of self.old end) }
        ensures answer { IfOk result (λ o. AreJoined (end_of self.old end) (end_of self.old (peer_of end)) → HeardIf (Z.text z.now) (end_of self.old end) (end_of self.old (peer_of end)) link (octets_named self.old end link nth) o.0) }
        ensures unforged { IfOk result (λ o. AreJoined (end_of self.old end) (end_of self.old (peer_of end)) → (opened : Opened) → ForgedIf (Z.text z.now) (end_of self.old end) (end_of self.old (peer_of end)) link (octets_named self.old end link nth) opened → ⊥) }
        ensures after { IfOk result (λ o. self.new ≡ with_end end (after_heard (end_of self.old (peer_of end)) o.0 (end_of self.old end)) self.old) }
        ensures again { IfOk result (λ o. o.1 ≡ o.0) }
        ensures fault { IfErr result (λ f. AreJoined (end_of self.old end) (end_of self.old (peer_of end)) → IsHearFault (Z.text z.now) (end_of self.old end) (end_of self.old (peer_of end)) link (octets_named self.old end link nth) f) }
        ensures unchanged { OnErr result (self.new ≡ self.old) }
    {
        match end {
            EndId::Ap => {
                let octets = aired(&self.sta, link, nth);
                hear_if(alloc, &mut self.ap, &self.sta, link, octets, z)
            }
            EndId::Sta => {
                let octets = aired(&self.ap, link, nth);
                hear_if(alloc, &mut self.sta, &self.ap, link, octets, z)
            }
        }
    }

    /// Lets an end hear octets on a link, where there are some, as `deliver` does.
    fn hear<Z: Sealer>(
        &mut self,
        alloc: Global,
        end: EndId,
        link: LinkId,
        octets: Option<&[u8]>,
        z: &Z,
    ) -> Result<(Outcome, Outcome), StepFault>
        requires roomy { IsRoomy (end_of self.old end) }
        ensures answer { IfOk result (λ o. AreJoined (end_of self.old end) (end_of self.old (peer_of end)) → HeardIf (Z.text z.now) (end_of self.old end) (end_of self.old (peer_of end)) link (option_copied octets.entry) o.0) }
        ensures unforged { IfOk result (λ o. AreJoined (end_of self.old end) (end_of self.old (peer_of end)) → (opened : Opened) → ForgedIf (Z.text z.now) (end_of self.old end) (end_of self.old (peer_of end)) link (option_copied octets.entry) opened → ⊥) }
        ensures after { IfOk result (λ o. self.new ≡ with_end end (after_heard (end_of self.old (peer_of end)) o.0 (end_of self.old end)) self.old) }
        ensures again { IfOk result (λ o. o.1 ≡ o.0) }
        ensures fault { IfErr result (λ f. AreJoined (end_of self.old end) (end_of self.old (peer_of end)) → IsHearFault (Z.text z.now) (end_of self.old end) (end_of self.old (peer_of end)) link (option_copied octets.entry) f) }
        ensures unchanged { OnErr result (self.new ≡ self.old) }
    {
        match end {
            EndId::Ap => hear_if(alloc, &mut self.ap, &self.sta, link, octets, z),
            EndId::Sta => hear_if(alloc, &mut self.sta, &self.ap, link, octets, z),
        }
    }

    /// Lets an end hear the frame that `deliver` would, with another sequence number, below 4,096.
    fn alter<Z: Sealer>(
        &mut self,
        alloc: Global,
        end: EndId,
        link: LinkId,
        nth: Option<u32>,
        number: u16,
        z: &Z,
    ) -> Result<(Outcome, Outcome), StepFault>
        requires fits { number < 4096 }
        requires roomy { IsRoomy (end_of self.old end) }
        ensures answer { IfOk result (λ o. AreJoined (end_of self.old end) (end_of self.old (peer_of end)) → HeardIf (Z.text z.now) (end_of self.old end) (end_of self.old (peer_of end)) link (option_map (with_number number) (octets_named self.old end link nth)) o.0) }
        ensures unforged { IfOk result (λ o. AreJoined (end_of self.old end) (end_of self.old (peer_of end)) → (opened : Opened) → ForgedIf (Z.text z.now) (end_of self.old end) (end_of self.old (peer_of end)) link (option_map (with_number number) (octets_named self.old end link nth)) opened → ⊥) }
        ensures after { IfOk result (λ o. self.new ≡ with_end end (after_heard (end_of self.old (peer_of end)) o.0 (end_of self.old end)) self.old) }
        ensures again { IfOk result (λ o. o.1 ≡ o.0) }
        ensures fault { IfErr result (λ f. AreJoined (end_of self.old end) (end_of self.old (peer_of end)) → IsHearFault (Z.text z.now) (end_of self.old end) (end_of self.old (peer_of end)) link (option_map (with_number number) (octets_named self.old end link nth)) f) }
        ensures unchanged { OnErr result (self.new ≡ self.old) }
    {
        let octets = match altered(alloc, aired(self.end(end.peer()), link, nth), number) {
            Ok(octets) => octets,
            Err(_) => return Err(StepFault::Memory),
        };
        self.hear(alloc, end, link, slice_of(&octets), z)
    }

    /// Lets an end hear a frame in its peer's name that somebody sealed, as if the peer had booked these
    /// numbers for this body; the position is the sequence number, below 4,096.
    fn forge<Z: Sealer>(
        &mut self,
        alloc: Global,
        end: EndId,
        link: LinkId,
        lane: Lane,
        numbers: Numbers,
        body: &Bytes,
        z: &Z,
    ) -> Result<(Outcome, Outcome), StepFault>
        requires known { is_link (end_of self.old (peer_of end)).start link ≡ true }
        requires fits { IsSealable numbers.pn numbers.pos body.now }
        requires roomy { IsRoomy (end_of self.old end) }
        ensures answer { IfOk result (λ o. AreJoined (end_of self.old end) (end_of self.old (peer_of end)) → HeardIf (Z.text z.now) (end_of self.old end) (end_of self.old (peer_of end)) link (Some (forged (Z.text z.now) (end_of self.old (peer_of end)).start link lane numbers body.now)) o.0) }
        ensures unforged { IfOk result (λ o. AreJoined (end_of self.old end) (end_of self.old (peer_of end)) → (opened : Opened) → ForgedIf (Z.text z.now) (end_of self.old end) (end_of self.old (peer_of end)) link (Some (forged (Z.text z.now) (end_of self.old (peer_of end)).start link lane numbers body.now)) opened → ⊥) }
        ensures after { IfOk result (λ o. self.new ≡ with_end end (after_heard (end_of self.old (peer_of end)) o.0 (end_of self.old end)) self.old) }
        ensures again { IfOk result (λ o. o.1 ≡ o.0) }
        ensures fault { IfErr result (λ f. AreJoined (end_of self.old end) (end_of self.old (peer_of end)) → IsHearFault (Z.text z.now) (end_of self.old end) (end_of self.old (peer_of end)) link (Some (forged (Z.text z.now) (end_of self.old (peer_of end)).start link lane numbers body.now)) f) }
        ensures unchanged { OnErr result (self.new ≡ self.old) }
    {
        let peer = self.end(end.peer());
        let octets = match peer.forged(link, lane, numbers, body.as_slice(), z) {
            Ok(octets) => octets,
            Err(_) => return Err(StepFault::Memory),
        };
        self.hear(alloc, end, link, Some(octets.as_slice()), z)
    }

    /// Lets an end do a command of a thread. The answer comes twice: for the caller and for the journal.
    ///
    /// `Forged` exactly where a frame that is heard opens and its sender has no booking of what it opens to.
    /// After an error nothing has changed. What is answered of a frame that is heard is told of an end
    /// that knows its peer's addresses; every other answer of any two ends.
    ///
    /// Conditions: a body to be queued or sealed has 1 to 2,304 octets, a sequence number is below 4,096, a
    /// packet number 1 to 2^48 - 1, a frame in the peer's name goes over one of its links, and entries have
    /// the bitmaps of eight TIDs; no queue has 2^32 - 8,192 bodies or more, and no window starts there or
    /// higher.
    pub fn act<Z: Sealer>(
        &mut self,
        alloc: Global,
        thread: u16,
        command: &Command,
        z: &Z,
    ) -> Result<(Outcome, Outcome), StepFault>
        requires fits { CanDo command.now self.old }
        requires roomy { (e : EndId) → IsRoomy (end_of self.old e) }
        ensures answer { IfOk result (λ o. KnowsPeer command.now self.old → IsAnswer (Z.text z.now) thread command.now self.old o.0) }
        ensures unforged { IfOk result (λ o. KnowsPeer command.now self.old → (opened : Opened) → Forges (Z.text z.now) command.now self.old opened → ⊥) }
        ensures after { IfOk result (λ o. self.new ≡ after (Z.text z.now) thread command.now o.0 self.old) }
        ensures again { IfOk result (λ o. o.1 ≡ o.0) }
        ensures fault { IfErr result (λ f. KnowsPeer command.now self.old → IsStepFault (Z.text z.now) command.now self.old f) }
        ensures unchanged { OnErr result (self.new ≡ self.old) }
    {
        match command {
            Command::Queue { end, tid, body } => both(queue(alloc, self.end_mut(*end), *tid, body)),
            Command::Reserve { end, lane } => both(self.end_mut(*end).reserve(thread, *lane)),
            Command::Book { end } => both(self.end_mut(*end).book(thread)),
            Command::Put { end, link } => both(self.end_mut(*end).put(thread, *link, z)),
            Command::Again {
                end,
                link,
                lane,
                pos,
            } => both(self.end_mut(*end).again(*link, *lane, *pos, z)),
            Command::Deliver { end, link, nth } => self.deliver(alloc, *end, *link, *nth, z),
            Command::Alter {
                end,
                link,
                nth,
                number,
            } => self.alter(alloc, *end, *link, *nth, *number, z),
            Command::Forge {
                end,
                link,
                lane,
                key,
                pn,
                number,
                body,
            } => {
                let numbers = Numbers {
                    pos: u32::from(*number),
                    key: *key,
                    pn: *pn,
                };
                self.forge(alloc, *end, *link, *lane, numbers, body, z)
            }
            Command::Inject { end, link, octets } => {
                self.hear(alloc, *end, *link, Some(octets.as_slice()), z)
            }
            Command::AckOut { end, lane } => match self.ack_out(alloc, *end, lane) {
                Ok(both) => Ok(both),
                Err(_) => Err(StepFault::Memory),
            },
            Command::AckIn { end, nth } => Ok(twice(self.ack_in(*end, *nth))),
            Command::BarOut { end, lane, to } => both(self.bar_out(*end, lane, *to)),
            Command::BarIn { end, nth } => match self.bar_in(alloc, *end, *nth) {
                Ok(both) => Ok(both),
                Err(_) => Err(StepFault::Memory),
            },
            Command::Install { end } => Ok(twice(install(self.end_mut(*end)))),
            Command::Turn { end } => Ok(twice(turn(self.end_mut(*end)))),
            Command::Power { end, link, on } => { Ok(twice(power(self.end_mut(*end), *link, *on))) }
            Command::MapAsk { end, entries } => {
                both(self.end_mut(*end).map_ask(entries.as_slice()))
            }
            Command::MapTeardown { end } => both(self.end_mut(*end).map_teardown()),
            Command::GiveUp { end, what } => Ok(twice(self.end_mut(*end).give_up(*what))),
        }
    }
}
