//! Ends.

ghost use Rattle.std.specs.Prelude.{◌≡◌, ◌==◌, is_err, ◌+◌, ◌-◌, ◌%◌, ◌^◌, ◌<◌, ◌≤◌, ℕ, Option, [], false, true, length, option_copied, Some, IfOk, IfSome, IfNone, OnOk, OnErr};
ghost use Rattle.wl_elem.specs.declared.lane.Lane.{Lane};
ghost use Rattle.wl_elem.specs.Lanes.{lane_index, lane_count, IsLane};
ghost use Rattle.wl_elem.specs.Links.{link_limit, has_link};
ghost use Rattle.wl_number.specs.NumberObject.{InRange, position_of, is_spent, drawn, after_draw};
ghost use Rattle.wl_number.specs.declared.numbers.Numbers.{Numbers};
ghost use Rattle.wl_number.specs.OrderRule.{NoneBreaks, list_at, list_of, with_booking};
ghost use Rattle.std.specs.List.{Contains};
ghost use Rattle.wl_number.specs.Bookings.{booking_count};
ghost use Rattle.wl_window.specs.Reordering.{stored_numbers};
ghost use Rattle.wl_window.specs.Originating.{newly_answer};
ghost use Rattle.wl_history.specs.declared.hand.Hand.{Hand};
ghost use Rattle.wl_history.specs.declared.hand.Hand.TheVariants.{Reserve as HoldsReserve, Booking as HoldsBooking};
ghost use Rattle.wl_history.specs.Hands.{hand_of};
ghost use Rattle.wl_history.specs.Answers.{last_key, reserve_answer, book_answer};
ghost use Rattle.wl_history.specs.Ends.{send_size, receive_size, is_set_up, is_link};
ghost use Rattle.wl_history.specs.Machines.{IsBodyOn};
ghost use Rattle.wl_history.specs.Plain.{IsPlain, FitsIn};
ghost use Rattle.wl_history.specs.Words.{at, last_of};
ghost use Rattle.wl_elem.specs.Element.{msdu_limit};
ghost use Rattle.wl_map.specs.Ends.{agreed_sets};

use crate::flight::{Flight, Under, frame_octets};
use crate::frames::Frames;
use crate::hands::Hands;
use crate::heard::Heard;
use crate::lanes::Lanes;
use crate::links::{link_at, links_set_up, why_kept};
use crate::peek::{Peek, peek_frame};
use crate::react::react;
use std::alloc::Global;
use std::marker::Model;
use wl_elem::{Bytes, Direction, EndId, KeysSpent, Lane, LinkId, LinkSet, Memory, Tid};
use wl_frame::{Sealer, decode_frame};
use wl_history::{
    Ack, Arrival, Bar, EndStart, Hand, Opened, Outcome, SequenceNumbers, Setup, a_booking_is_found,
    an_end_keeps,
};
use wl_map::MapEnd;
use wl_number::{Bookings, NumberState, Numbers, a_draw_is_next, booked_once, highest_breaks_none};
use wl_replay::{KeyRing, ReplayGuard};
use wl_ttlm::Mapping;
use wl_window::{MoveRefusal, OriginRefusal};

/// One end of an association: an AP MLD or a station MLD.
///
/// It queues bodies, gives them numbers, seals and airs them, and it opens, orders and acknowledges
/// what its peer sends. Each thread has a hand, in which it holds a reserve and then a booking on the
/// way from the queue to the air.
#[derive(Debug, Drop)]
pub struct End {
    pub(crate) alloc: Global,
    start: EndStart,
    pub(crate) lanes: Lanes,
    hands: Hands,
    numbers: NumberState,
    booked: Bookings,
    guard: ReplayGuard,
    pub(crate) setup: Setup,
    frames: Frames,
}

impl Model for End {
    ghost use Rattle.wl_history.specs.EndState.{EndState};
    ghost use Rattle.wl_end.specs.Ending.{IsKept};

    ghost Value = { EndState };

    ghost view = { λ e. record { start = e.start; lanes = e.lanes; hands = e.hands.hands; numbers = e.numbers; booked = e.booked.lanes; last = e.guard; setup = e.setup; frames = e.frames } };

    ghost invariant = { λ e. IsKept (record { start = e.start; lanes = e.lanes; hands = e.hands.hands; numbers = e.numbers; booked = e.booked.lanes; last = e.guard; setup = e.setup; frames = e.frames }) };
}

/// The lane's TID is one of data.
fn test_lane(lane: &Lane)
    ensures data { IsLane lane.now }
    ensures bound { lane_index lane.now < lane_count }
{
    if let Lane::Tid(tid) = lane {
        tid.get();
    }
}

/// How many positions from its base on a lane may have granted.
fn send_size(setup: &Setup, lane: &Lane) -> u16
    ensures { result ≡ send_size setup.now (lane_index lane.now) }
{
    test_lane(lane);
    match lane {
        Lane::Tid(_) => setup.window,
        Lane::Management => 16,
    }
}

/// How many numbers the window of a lane has.
fn receive_size(setup: &Setup, lane: &Lane) -> u16
    ensures { result ≡ receive_size setup.now (lane_index lane.now) }
{
    test_lane(lane);
    match lane {
        Lane::Tid(_) => setup.window,
        Lane::Management => 1,
    }
}

/// The next numbers of a lane, of which there are some.
fn next_of(numbers: &mut NumberState, lane: &Lane) -> Numbers
    requires fresh { is_spent numbers.old ≡ false }
    requires room { position_of numbers.old lane.now < 2 ^ 32 - 1 }
    ensures drawn { result ≡ drawn numbers.old lane.now }
    ensures after { numbers.new ≡ after_draw numbers.old lane.now }
    ensures range { InRange result }
{
    match numbers.next(*lane) {
        Ok(n) => n,
        Err(_) => unreachable!(),
    }
}

/// Books numbers that break no rule, where there is room.
fn enter(booked: &mut Bookings, lane: &Lane, n: Numbers)
    requires range { InRange n }
    requires stands { NoneBreaks booked.old.lanes lane.now n }
    requires room { 1 ≤ booked.old.spare }
    ensures { booked.new.lanes ≡ with_booking booked.old.lanes lane.now n }
{
    match booked.book(*lane, n) {
        Ok(()) => (),
        Err(_) => unreachable!(),
    }
}

impl End {
    ghost use Rattle.wl_history.specs.EndState.{EndState, IsEnd, lane_at, management, frames_on, started, after_queue, after_reserve, after_book, after_put, put_down, with_frame, after_again, was_aired_at, hear_answer, after_hear, acked_by, after_ack, given_by, after_bar_out, moved_by, after_moved, after_install, after_turn};
    ghost use Rattle.wl_end.specs.Parts.{frame_count};
    ghost use Rattle.wl_end.specs.Peeking.{IsPeek, PeekFits, IsBookingOf};
    ghost use Rattle.wl_history.specs.Answers.{put_of, aired_octets, booked_at, again_of, octets_again, moved_answer};
    ghost use Rattle.wl_history.specs.Hearing.{forged};
    ghost use Rattle.wl_end.specs.Putting.{is_booking, bar_of};

    /// An end that did nothing yet. `Memory` where there was none for its windows.
    ///
    /// Conditions: the window is 1 to 256, and the first packet number 1 to 2^48 - 1.
    pub fn new(alloc: Global, start: &EndStart) -> Result<End, Memory>
        requires some_window { 1 ≤ start.now.window }
        requires window_limit { start.now.window ≤ 256 }
        requires some_pn { 1 ≤ start.now.first_pn }
        requires pn_limit { start.now.first_pn < 2 ^ 48 }
        ensures started { IfOk result (λ e. e ≡ started start.now) }
        ensures sound { IfOk result (λ e. IsEnd e) }
    {
        an_end_keeps();
        let lanes = Lanes::new(alloc)?;
        let start = start.copy(alloc)?;
        let numbers = NumberState::new(start.first_key, start.first_pn);
        let setup = Setup {
            links: links_set_up(&start),
            radios: [true; 15],
            window: start.window,
            keys: KeyRing::new(start.newest),
            maps: MapEnd::new(start.deny, links_set_up(&start)),
            token: 0,
        };
        Ok(End {
            alloc,
            start,
            lanes,
            hands: Hands::new(alloc),
            numbers,
            booked: Bookings::new(alloc),
            guard: ReplayGuard::new(),
            setup,
            frames: Frames::new(alloc),
        })
    }

    /// Puts an MSDU at the end of the queue of a TID, and gives its position. After `Memory` nothing
    /// has changed.
    ///
    /// Conditions: the body has 1 to 2,304 octets, and the queue is shorter than 2^32 - 8,192.
    pub fn queue(&mut self, tid: Tid, body: Bytes) -> Result<u32, Memory>
        requires some { 1 ≤ length body }
        requires limit { length body ≤ msdu_limit }
        requires room { length (lane_at self.old (lane_index (Lane.Tid tid))).queue < 2 ^ 32 - 8192 }
        ensures pos { IfOk result (λ pos. pos ≡ length (lane_at self.old (lane_index (Lane.Tid tid))).queue) }
        ensures after { OnOk result (self.new ≡ after_queue (lane_index (Lane.Tid tid)) body self.old) }
        ensures unchanged { OnErr result (self.new ≡ self.old) }
        ensures sound { IsEnd self.new }
    {
        an_end_keeps();
        tid.get();
        let lane = Lane::Tid(tid);
        let pos = self.lanes.at(&lane).queued();
        self.lanes.at_mut(&lane).queue(body)?;
        Ok(pos)
    }

    /// Lets a thread's empty hand take a reserve of a lane: room in its window for one body more.
    ///
    /// HandFull where the hand holds a reserve or a booking, NothingQueued where each queued body has
    /// its reserve, WindowFull where as many positions are granted from the base on as the send size;
    /// the first of these that holds. They change nothing. After `Memory` nothing has changed.
    pub fn reserve(&mut self, thread: u16, lane: Lane) -> Result<Outcome, Memory>
        ensures answer { IfOk result (λ o. o ≡ reserve_answer (hand_of self.old.hands thread) (length (lane_at self.old (lane_index lane)).queue) (lane_at self.old (lane_index lane)).sending (send_size self.old.setup (lane_index lane))) }
        ensures plain { IfOk result IsPlain }
        ensures after { IfOk result (λ o. self.new ≡ after_reserve thread lane o self.old) }
        ensures unchanged { OnErr result (self.new ≡ self.old) }
        ensures sound { IsEnd self.new }
    {
        an_end_keeps();
        test_lane(&lane);
        match self.hands.get(thread) {
            Hand::Empty => (),
            Hand::Reserve(_) | Hand::Booking(_, _) => return Ok(Outcome::HandFull),
        }
        self.hands.room_for(thread)?;
        let size = send_size(&self.setup, &lane);
        match self.lanes.at_mut(&lane).reserve(size) {
            Ok(()) => (),
            Err(OriginRefusal::NothingQueued) => return Ok(Outcome::NothingQueued),
            Err(OriginRefusal::WindowFull) => return Ok(Outcome::WindowFull),
        }
        self.hands.set(thread, Hand::Reserve(lane));
        Ok(Outcome::Reserved)
    }

    /// Gives the reserve of a lane in a hand back.
    fn give_back(&mut self, thread: u16, lane: &Lane)
        requires { hand_of self.old.hands thread ≡ HoldsReserve lane.now }
        ensures after { self.new ≡ after_book thread (Outcome.Spent lane.now) self.old }
        ensures sound { IsEnd self.new }
    {
        an_end_keeps();
        test_lane(lane);
        self.lanes.at_mut(lane).give_back();
        self.hands.replace(thread, Hand::Empty);
    }

    /// Gives the reserve of a lane in a hand the next numbers.
    fn draw(&mut self, thread: u16, lane: &Lane) -> Result<Numbers, Memory>
        requires held { hand_of self.old.hands thread ≡ HoldsReserve lane.now }
        requires fresh { is_spent self.old.numbers ≡ false }
        ensures drawn { IfOk result (λ n. n ≡ drawn self.old.numbers lane.now) }
        ensures after { OnOk result (self.new ≡ after_book thread (Outcome.Booked lane.now (drawn self.old.numbers lane.now)) self.old) }
        ensures unchanged { OnErr result (self.new ≡ self.old) }
        ensures sound { IsEnd self.new }
    {
        an_end_keeps();
        a_draw_is_next();
        highest_breaks_none();
        test_lane(lane);
        // The reserve is of a queued body, and fewer than 2^32 were queued: so a position follows.
        self.lanes.at(lane).queued();
        let pos = self.numbers.position(*lane);
        self.booked.reserve()?;
        self.lanes.at_mut(lane).book(pos)?;
        let n = next_of(&mut self.numbers, lane);
        enter(&mut self.booked, lane, n);
        self.hands.replace(thread, Hand::Booking(*lane, n));
        Ok(n)
    }

    /// Gives the reserve in a thread's hand the lane's next position and the key's next packet number.
    ///
    /// NoReserve where the hand holds no reserve; it changes nothing. Spent where the last packet
    /// number of the key was used: the reserve is given back, and the hand is empty. After `Memory`
    /// nothing has changed.
    pub fn book(&mut self, thread: u16) -> Result<Outcome, Memory>
        ensures answer { IfOk result (λ o. o ≡ book_answer (hand_of self.old.hands thread) self.old.numbers) }
        ensures plain { IfOk result IsPlain }
        ensures after { IfOk result (λ o. self.new ≡ after_book thread o self.old) }
        ensures unchanged { OnErr result (self.new ≡ self.old) }
        ensures sound { IsEnd self.new }
    {
        let Hand::Reserve(lane) = self.hands.get(thread) else {
            return Ok(Outcome::NoReserve);
        };
        if self.numbers.next_pn() == 1 << 48 {
            self.give_back(thread, &lane);
            return Ok(Outcome::Spent { lane });
        }
        match self.draw(thread, &lane) {
            Ok(numbers) => Ok(Outcome::Booked { lane, numbers }),
            Err(e) => Err(e),
        }
    }

    /// The numbers booked at a position of a lane. None exactly where there are none.
    fn booked_at(&self, lane: &Lane, pos: u32) -> Option<Numbers>
        ensures value { result ≡ booked_at self.now lane.now pos }
        ensures there { IfSome result (Contains (list_of self.now.booked lane.now)) }
    {
        a_booking_is_found();
        self.booked.at(*lane, pos)
    }

    /// Airs a booking of a lane over a link that is set up, and says whether it was aired before.
    fn frame<Z: Sealer>(
        &mut self,
        link: LinkId,
        lane: &Lane,
        n: &Numbers,
        z: &Z,
    ) -> Result<bool, Memory>
        requires booked { Contains (list_of self.old.booked lane.now) n.now }
        requires set_up { is_set_up self.old.setup link ≡ true }
        ensures retry { IfOk result (λ retry. retry ≡ was_aired_at (lane_at self.old (lane_index lane.now)).aired n.now.pos) }
        ensures after { OnOk result (self.new ≡ with_frame link (octets_again (Z.text z.now) link lane.now (Some n.now) self.old) lane.now n.now self.old) }
        ensures unchanged { OnErr result (self.new ≡ self.old) }
        ensures sound { IsEnd self.new }
    {
        an_end_keeps();
        test_lane(lane);
        let kept = self.lanes.at(lane);
        let retry = kept.was_aired(n.pos);
        let flight = Flight {
            link,
            lane: *lane,
            numbers: *n,
            retry,
        };
        let on = match link_at(self.start.links.as_slice(), link) {
            Some(on) => on,
            None => unreachable!(),
        };
        self.booked.at(*lane, n.pos);
        let octets = frame_octets(self.alloc, &self.start, &on, &flight, kept.body(n.pos), z)?;
        self.frames.push(link, octets)?;
        self.lanes.at_mut(lane).air(n.pos);
        Ok(retry)
    }

    /// Airs the booking of a lane in a hand over a link that is set up, and says whether it was aired
    /// before.
    fn air<Z: Sealer>(
        &mut self,
        thread: u16,
        link: LinkId,
        lane: &Lane,
        n: &Numbers,
        z: &Z,
    ) -> Result<bool, Memory>
        requires held { hand_of self.old.hands thread ≡ HoldsBooking lane.now n.now }
        requires set_up { is_set_up self.old.setup link ≡ true }
        ensures retry { IfOk result (λ retry. retry ≡ was_aired_at (lane_at self.old (lane_index lane.now)).aired n.now.pos) }
        ensures after { IfOk result (λ retry. self.new ≡ after_put thread link (aired_octets (Z.text z.now) link (hand_of self.old.hands thread) self.old) (Outcome.Put lane.now n.now retry) self.old) }
        ensures unchanged { OnErr result (self.new ≡ self.old) }
        ensures sound { IsEnd self.new }
    {
        an_end_keeps();
        // What a hand holds is booked.
        self.test();
        let retry = self.frame(link, lane, n, z)?;
        self.hands.replace(thread, Hand::Empty);
        Ok(retry)
    }

    /// Puts the booking in a hand down, unsent.
    fn put_down(&mut self, thread: u16)
        requires { is_booking (hand_of self.old.hands thread) ≡ true }
        ensures after { self.new ≡ put_down thread (hand_of self.old.hands thread) self.old }
        ensures sound { IsEnd self.new }
    {
        an_end_keeps();
        let empty = Hand::Empty;
        self.hands.replace(thread, empty);
    }

    /// Sends the booking in a thread's hand over a link, and empties the hand, whatever is answered.
    ///
    /// Nothing where the hand holds no booking or its position is done. Kept where the booking may not go
    /// over the link, with the first reason that holds: the link isn't set up here, its radio is off
    /// here, or the own agreed mapping doesn't map the lane to it. After `Memory` nothing has changed.
    pub fn put<Z: Sealer>(&mut self, thread: u16, link: LinkId, z: &Z) -> Result<Outcome, Memory>
        ensures answer { IfOk result (λ o. o ≡ put_of link (hand_of self.old.hands thread) self.old) }
        ensures plain { IfOk result IsPlain }
        ensures after { IfOk result (λ o. self.new ≡ after_put thread link (aired_octets (Z.text z.now) link (hand_of self.old.hands thread) self.old) o self.old) }
        ensures unchanged { OnErr result (self.new ≡ self.old) }
        ensures sound { IsEnd self.new }
    {
        let Hand::Booking(lane, numbers) = self.hands.get(thread) else {
            return Ok(Outcome::Nothing);
        };
        let pos = numbers.pos;
        if self.lanes.at(&lane).is_done(pos) {
            self.put_down(thread);
            return Ok(Outcome::Nothing);
        }
        if let Some(why) = why_kept(self.start.end, &self.setup, &lane, link) {
            self.put_down(thread);
            return Ok(Outcome::Kept { lane, pos, why });
        }
        match self.air(thread, link, &lane, &numbers, z) {
            Ok(retry) => Ok(Outcome::Put {
                lane,
                numbers,
                retry,
            }),
            Err(e) => Err(e),
        }
    }

    /// Sends the booking at a position of a lane over a link, again or for the first time: the same sealed
    /// payload, whatever link it went over before and whatever key is sent under by now. No hand changes.
    ///
    /// Nothing where the position isn't booked or is done, KeptAgain where it may not go over the link, as
    /// `put` has it; they change nothing. After `Memory` nothing has changed.
    pub fn again<Z: Sealer>(
        &mut self,
        link: LinkId,
        lane: Lane,
        pos: u32,
        z: &Z,
    ) -> Result<Outcome, Memory>
        ensures answer { IfOk result (λ o. o ≡ again_of link lane (booked_at self.old lane pos) self.old) }
        ensures plain { IfOk result IsPlain }
        ensures after { IfOk result (λ o. self.new ≡ after_again link lane (octets_again (Z.text z.now) link lane (booked_at self.old lane pos) self.old) o self.old) }
        ensures unchanged { OnErr result (self.new ≡ self.old) }
        ensures sound { IsEnd self.new }
    {
        let Some(numbers) = self.booked_at(&lane, pos) else {
            return Ok(Outcome::Nothing);
        };
        if self.lanes.at(&lane).is_done(numbers.pos) {
            return Ok(Outcome::Nothing);
        }
        if let Some(why) = why_kept(self.start.end, &self.setup, &lane, link) {
            return Ok(Outcome::KeptAgain { why });
        }
        match self.frame(link, &lane, &numbers, z) {
            Ok(retry) => Ok(Outcome::PutAgain { numbers, retry }),
            Err(e) => Err(e),
        }
    }

    /// The octets of a frame in this end's name, sealed as if it had booked these numbers for this body:
    /// what anybody can put on the air who has the key. Nothing changes.
    ///
    /// Conditions: the link is one of the end's, the packet number is 1 to 2^48 - 1, and the body has at
    /// most 2,304 octets.
    pub fn forged<Z: Sealer>(
        &self,
        link: LinkId,
        lane: Lane,
        numbers: Numbers,
        body: &[u8],
        z: &Z,
    ) -> Result<Bytes, Memory>
        requires known { is_link self.now.start link ≡ true }
        requires range { InRange numbers }
        requires short { length body.now ≤ msdu_limit }
        ensures { IfOk result (λ o. o ≡ forged (Z.text z.now) self.now.start link lane numbers body.now) }
    {
        let flight = Flight {
            link,
            lane,
            numbers,
            retry: false,
        };
        let on = match link_at(self.start.links.as_slice(), link) {
            Some(on) => on,
            None => unreachable!(),
        };
        frame_octets(self.alloc, &self.start, &on, &flight, body, z)
    }

    /// What is seen of octets that came over a link: why nothing is opened, by the first of these that
    /// holds, or what a payload was opened to. Nothing changes.
    ///
    /// - BadFrame: the octets aren't a frame.
    /// - LinkDown: the radio is off on the link, or the frame is protected and the link isn't set up.
    /// - BadFrame with WrongAddress: the first address isn't the own one on the link, the second isn't
    ///   the peer's, or data goes the way that this end sends.
    /// - Ignored: an association frame.
    /// - NoKey: no key of the frame's key ID is held.
    /// - NotOpened: the payload is the text of no body.
    pub fn peek<Z: Sealer>(&self, link: LinkId, octets: &[u8], z: &Z) -> Result<Peek, Memory>
        ensures peeked { IfOk result (IsPeek (Z.text z.now) self.now link octets.now) }
        ensures fits { IfOk result PeekFits }
        ensures sound { IsEnd self.now }
    {
        match decode_frame(octets) {
            Ok(frame) => peek_frame(self.alloc, &self.start, &self.setup, link, &frame, z),
            Err(refusal) => Ok(Peek::Answered(Outcome::BadFrame {
                why: refusal.why,
                place: refusal.place,
            })),
        }
    }

    /// The position of this end's booking of a lane with this packet number that was sealed so: with
    /// this key, nonce, AAD and body. None exactly where it has no such booking. It takes no memory.
    pub fn booking_of(&self, lane: Lane, pn: u64, four: &Opened) -> Option<u32>
        ensures some { IfSome result (IsBookingOf self.now lane pn four.now) }
        ensures none { IfNone result ((pos : ℕ) → IsBookingOf self.now lane pn four.now pos → ⊥) }
        ensures sound { IsEnd self.now }
    {
        booked_once();
        let Some((found, pos)) = self.booked.of_pair(four.key.number, pn) else {
            return None;
        };
        if found.index() != lane.index() {
            return None;
        }
        let own = Under::new(&self.start, self.start.end, &lane, four.key.number, pn);
        if own.sealed(self.lanes.at(&lane).body(pos), four) {
            Some(pos)
        } else {
            None
        }
    }

    /// Takes a body that opened, with the frame's sequence number and the numbers of the booking at the
    /// sender.
    ///
    /// Replay where its key and packet number aren't above those of the last body that the lane
    /// released, OldNumber where its number is 2,048 or more ahead of the window's start, Double where
    /// that is stored already; they change nothing. Otherwise it is stored, and of what goes up then
    /// each body above the last one released is released. A body of management that is released acts: a
    /// request for mappings is answered by a reply in the own queue, a reply and a teardown are taken.
    /// After `Memory` nothing has changed.
    ///
    /// Conditions: the lane's window starts below 2^32 - 8,192, the queue of management is shorter than
    /// that, and a body of management is one that an end makes.
    pub fn hear(&mut self, lane: Lane, number: u16, arrival: Arrival) -> Result<Outcome, Memory>
        requires low { (lane_at self.old (lane_index lane)).window.start < 2 ^ 32 - 8192 }
        requires room { length (lane_at self.old management).queue < 2 ^ 32 - 8192 }
        requires made { IsBodyOn lane arrival.body }
        ensures answer { IfOk result (λ o. o ≡ hear_answer lane number (receive_size self.old.setup (lane_index lane)) arrival self.old) }
        ensures fits { IfOk result (FitsIn (length (lane_at self.old (lane_index lane)).window.slots + 1)) }
        ensures after { OnOk result (self.new ≡ after_hear lane number (receive_size self.old.setup (lane_index lane)) arrival self.old) }
        ensures unchanged { OnErr result (self.new ≡ self.old) }
        ensures sound { IsEnd self.new }
    {
        an_end_keeps();
        test_lane(&lane);
        let numbers = arrival.numbers;
        if !self.guard.above(lane, numbers.key, numbers.pn) {
            return Ok(Outcome::Replay);
        }
        let size = receive_size(&self.setup, &lane);
        let mut maps = self.setup.maps;
        let reply = react(self.alloc, &lane, arrival.body.as_slice(), &mut maps)?;
        let guard = &mut self.guard;
        let heard = self
            .lanes
            .at_mut(&lane)
            .hear(self.alloc, &lane, number, size, arrival, reply, guard);
        match heard {
            Ok(Heard::Old) => Ok(Outcome::OldNumber),
            Ok(Heard::Doubled) => Ok(Outcome::Double),
            Ok(Heard::Stored(up)) => {
                self.setup.maps = maps;
                Ok(Outcome::Stored {
                    lane,
                    number,
                    numbers,
                    up,
                })
            }
            Err(e) => Err(e),
        }
    }

    /// What a lane has received, to be acknowledged: the window's start and the numbers stored.
    pub fn ack_out(&self, lane: Lane) -> Result<Ack, Memory>
        ensures lane { IfOk result (λ a. a.lane ≡ lane) }
        ensures start { IfOk result (λ a. a.start ≡ (lane_at self.now (lane_index lane)).window.start % 4096) }
        ensures stored { IfOk result (λ a. a.stored ≡ stored_numbers (lane_at self.now (lane_index lane)).window.slots) }
        ensures sound { IsEnd self.now }
    {
        let kept = self.lanes.at(&lane);
        let start = (kept.start() % 4096) as u16;
        let numbers = kept.stored();
        let stored = SequenceNumbers::from_slice(self.alloc, numbers.as_slice())?;
        Ok(Ack {
            lane,
            start,
            stored,
        })
    }

    /// Holds the next key, which is the newest then, and gives its number. `KeysSpent` exactly at key
    /// 65,535; nothing changes then. It takes no memory.
    pub fn install(&mut self) -> Result<u16, KeysSpent>
        ensures spent { is_err result ≡ (self.old.setup.keys == last_key) }
        ensures key { IfOk result (λ key. key ≡ self.old.setup.keys + 1) }
        ensures after { IfOk result (λ key. self.new ≡ after_install (Outcome.Installed key) self.old) }
        ensures unchanged { OnErr result (self.new ≡ self.old) }
        ensures sound { IsEnd self.new }
    {
        an_end_keeps();
        self.setup.keys.install()
    }

    /// Turns to the next key, whose packet numbers begin at 1, and gives its number. `KeysSpent` exactly
    /// where key 65,535 is sent under; nothing changes then. It takes no memory.
    pub fn turn(&mut self) -> Result<u16, KeysSpent>
        ensures spent { is_err result ≡ (self.old.numbers.key == last_key) }
        ensures key { IfOk result (λ key. key ≡ self.old.numbers.key + 1) }
        ensures after { IfOk result (λ key. self.new ≡ after_turn (Outcome.Turned key) self.old) }
        ensures unchanged { OnErr result (self.new ≡ self.old) }
        ensures sound { IsEnd self.new }
    {
        an_end_keeps();
        self.numbers.turn()
    }

    /// Takes an acknowledgement that the peer made. How many positions are done now that weren't.
    ///
    /// None exactly where it is old: its start is past the greatest booked position; then nothing
    /// changes. It takes no memory.
    pub fn ack_in(&mut self, ack: &Ack) -> Option<u32>
        ensures count { result ≡ newly_answer (acked_by ack.now self.old) }
        ensures after { self.new ≡ after_ack ack.now self.old }
        ensures sound { IsEnd self.new }
    {
        an_end_keeps();
        test_lane(&ack.lane);
        self.lanes
            .at_mut(&ack.lane)
            .ack(ack.start, ack.stored.as_slice())
    }

    /// Gives all positions of a lane below `to` up, so that they are done, and asks the peer to move its
    /// window past them. It takes no memory.
    ///
    /// NotBooked exactly where one of them isn't booked, Behind exactly where all are and are done; both
    /// change nothing.
    pub fn bar_out(&mut self, lane: Lane, to: u32) -> Result<Bar, MoveRefusal>
        ensures answer { result ≡ bar_of lane (given_by lane to self.old) }
        ensures after { self.new ≡ after_bar_out lane to self.old }
        ensures sound { IsEnd self.new }
    {
        an_end_keeps();
        test_lane(&lane);
        match self.lanes.at_mut(&lane).advance(to) {
            Ok(base) => Ok(Bar {
                lane,
                start: (base % 4096) as u16,
            }),
            Err(why) => Err(why),
        }
    }

    /// Takes a request of the peer to move a lane's window. Of what goes up then, each body above the last
    /// one released is released. After `Memory` nothing has changed.
    ///
    /// OldBar where the window starts there, or 2,048 and more past it; then nothing changes.
    ///
    /// Condition: the lane's window starts below 2^32 - 8,192.
    pub fn bar_in(&mut self, bar: &Bar) -> Result<Outcome, Memory>
        requires { (lane_at self.old (lane_index bar.now.lane)).window.start < 2 ^ 32 - 8192 }
        ensures answer { IfOk result (λ o. o ≡ moved_answer bar.now (moved_by bar.now self.old) self.old) }
        ensures fits { IfOk result (FitsIn (length (lane_at self.old (lane_index bar.now.lane)).window.slots)) }
        ensures after { OnOk result (self.new ≡ after_moved bar.now.lane (moved_by bar.now self.old) self.old) }
        ensures unchanged { OnErr result (self.new ≡ self.old) }
        ensures sound { IsEnd self.new }
    {
        an_end_keeps();
        test_lane(&bar.lane);
        let (lane, start) = (bar.lane, bar.start);
        let guard = &mut self.guard;
        let asked = self
            .lanes
            .at_mut(&lane)
            .request(self.alloc, &lane, start, guard);
        match asked {
            Ok(Some(up)) => Ok(Outcome::Moved { lane, start, up }),
            Ok(None) => Ok(Outcome::OldBar),
            Err(e) => Err(e),
        }
    }

    /// The frame of this number on a link, from 0. None exactly where fewer were aired there.
    pub fn aired(&self, link: LinkId, nth: u32) -> Option<&[u8]>
        ensures value { option_copied result ≡ at (frames_on self.now link) nth }
        ensures sound { IsEnd self.now }
    {
        self.frames.nth(link, nth)
    }

    /// The last frame on a link. None exactly where none was aired there.
    pub fn latest(&self, link: LinkId) -> Option<&[u8]>
        ensures value { option_copied result ≡ last_of (frames_on self.now link) }
        ensures sound { IsEnd self.now }
    {
        self.frames.latest(link)
    }

    /// What holds of it at any time. It changes nothing and takes no memory.
    pub fn test(&self)
        ensures sound { IsEnd self.now }
        ensures in_range { (place : ℕ) (n : Numbers) → Contains (list_at self.now.booked place) n → InRange n }
    {
        self.booked.at(Lane::Management, 0);
    }

    /// How many frames were aired, on all links.
    pub fn aired_count(&self) -> u32
        requires { frame_count self.now.frames < 2 ^ 32 }
        ensures value { result ≡ frame_count self.now.frames }
        ensures sound { IsEnd self.now }
    {
        self.frames.count()
    }

    /// How many numbers were booked, on all lanes.
    pub fn booked_count(&self) -> u32
        requires { booking_count self.now.booked < 2 ^ 32 }
        ensures value { result ≡ booking_count self.now.booked }
        ensures sound { IsEnd self.now }
    {
        self.booked.count()
    }

    /// How many bodies were queued on a lane.
    pub fn queued(&self, lane: Lane) -> u32
        ensures value { result ≡ length (lane_at self.now (lane_index lane)).queue }
        ensures sound { IsEnd self.now }
    {
        self.lanes.at(&lane).queued()
    }

    /// The start of a lane's window: the first sequence number, in full, that was neither passed up nor
    /// given up.
    pub fn window_start(&self, lane: Lane) -> u32
        ensures value { result ≡ (lane_at self.now (lane_index lane)).window.start }
        ensures sound { IsEnd self.now }
    {
        self.lanes.at(&lane).start()
    }

    /// How many bodies a lane's window has stored: at most 256.
    pub fn held(&self, lane: Lane) -> u16
        ensures value { result ≡ length (lane_at self.now (lane_index lane)).window.slots }
        ensures limit { result ≤ 256 }
        ensures sound { IsEnd self.now }
    {
        self.lanes.at(&lane).held()
    }

    /// The positions that a lane released, in order.
    pub fn released(&self, lane: Lane) -> &[u32]
        ensures value { result.now ≡ (lane_at self.now (lane_index lane)).released }
        ensures sound { IsEnd self.now }
    {
        self.lanes.at(&lane).released()
    }

    /// The links that are set up.
    pub fn links(&self) -> LinkSet
        ensures value { result ≡ self.now.setup.links }
        ensures sound { IsEnd self.now }
    {
        self.setup.links
    }

    /// The mapping agreed on in a direction: by TID the links in force, none where no link is set up.
    pub fn agreed(&self, d: Direction) -> Mapping
        ensures value { result.sets ≡ agreed_sets d self.now.setup.maps }
        ensures sound { IsEnd self.now }
    {
        self.setup.maps.agreed(d)
    }

    /// The number of the key that it sends under.
    pub fn send_key(&self) -> u16
        ensures value { result ≡ self.now.numbers.key }
        ensures sound { IsEnd self.now }
    {
        self.numbers.key()
    }

    /// The number of the newest key that it holds.
    pub fn newest(&self) -> u16
        ensures value { result ≡ self.now.setup.keys }
        ensures sound { IsEnd self.now }
    {
        self.setup.keys.newest()
    }

    /// What it started with.
    pub fn start(&self) -> &EndStart
        ensures value { result.now ≡ self.now.start }
        ensures sound { IsEnd self.now }
    {
        &self.start
    }
}
