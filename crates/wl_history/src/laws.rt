//! Laws of the definitions, each the contract of a function that does nothing.

ghost use Rattle.std.specs.Prelude.{◌≡◌, ◌≢◌, ◌+◌, ◌<◌, ◌≤◌, ◌∷◌, [], ℕ, Bool, false, List, Option, Some, length, Result};
ghost use Rattle.std.specs.List.{Contains};
ghost use Rattle.wl_elem.specs.Element.{msdu_limit};
ghost use Rattle.wl_elem.specs.declared.fault.Refusal.{Refusal};
ghost use Rattle.wl_elem.specs.declared.lane.EndId.{EndId};
ghost use Rattle.wl_elem.specs.declared.lane.Lane.{Lane};
ghost use Rattle.wl_elem.specs.Lanes.{lane_index, IsLane};
ghost use Rattle.wl_frame.specs.Frame.{FrameValue, IsHeader, spelling};
ghost use Rattle.wl_frame.specs.Refusals.{ReadAs};
ghost use Rattle.wl_frame.specs.Sealing.{Sealing};
ghost use Rattle.wl_number.specs.declared.numbers.Numbers.{Numbers};
ghost use Rattle.wl_number.specs.NumberObject.{drawn};
ghost use Rattle.wl_number.specs.OrderRule.{OrderRule, list_of};
ghost use Rattle.wl_window.specs.Originating.{is_done};
ghost use Rattle.wl_window.specs.Reordering.{Moved, Stored as CameStored, arrived};
ghost use Rattle.wl_elem.specs.declared.lane.Lane.TheVariants.{Management};
ghost use Rattle.wl_history.specs.declared.ack.Ack.{Ack};
ghost use Rattle.wl_history.specs.declared.arrival.Arrival.{Arrival};
ghost use Rattle.wl_history.specs.declared.command.Command.{Command};
ghost use Rattle.wl_history.specs.declared.command.Command.TheVariants.{Turn};
ghost use Rattle.wl_history.specs.declared.hand.Hand.TheVariants.{Empty, Reserve, Booking};
ghost use Rattle.wl_history.specs.declared.outcome.Outcome.{Outcome};
ghost use Rattle.wl_history.specs.declared.outcome.Outcome.TheVariants.{Asked, Reserved, Spent, Booked, Stored, Turned};
ghost use Rattle.wl_message.specs.declared.message.Message.TheVariants.{MapAsk};
ghost use Rattle.wl_message.specs.declared.message.Message.{Message};
ghost use Rattle.wl_message.specs.Message.{changes_of, message_octets, IsMessage};
ghost use Rattle.wl_history.specs.declared.setup.Setup.{Setup};
ghost use Rattle.wl_history.specs.declared.start.EndStart.{EndStart};
ghost use Rattle.wl_history.specs.declared.start.Start.{Start};
ghost use Rattle.wl_history.specs.declared.step.Step.{Step};
ghost use Rattle.wl_history.specs.Below.{MessageLaws, NumberLaws, WindowLaws};
ghost use Rattle.wl_history.specs.Hands.{hand_of};
ghost use Rattle.wl_history.specs.Answers.{at_position};
ghost use Rattle.wl_message.specs.declared.changes.MapEntry.{MapEntry};
ghost use Rattle.wl_history.specs.declared.ack.Bar.{Bar};
ghost use Rattle.wl_history.specs.declared.command.Machine.{Machine};
ghost use Rattle.wl_history.specs.Machines.{AreEntries, IsBodyOn, given, map_ask_answer, map_asked, map_torn, switched};
ghost use Rattle.wl_history.specs.Ends.{receive_size, start_of};
ghost use Rattle.wl_history.specs.Hearing.{Answered, Closed, IsClosed, ToOpen, judged, with_number};
ghost use Rattle.wl_history.specs.Words.{Airing, airings, send_key};
ghost use Rattle.wl_history.specs.EndState.{EndState, IsEnd, lane_at, management, started, with_hand, with_frame, with_made, with_moved, moved_by, after_queue, after_reserve, after_book, hear_answer, after_hear, after_told, after_ack, after_bar_out, after_moved, after_install, after_turn};
ghost use Rattle.wl_history.specs.AirState.{AirState, end_of, state_of};
ghost use Rattle.wl_history.specs.Plain.{IsPlain};
ghost use Rattle.wl_history.specs.Legal.{IsAnswer, Legal};
ghost use Rattle.wl_history.specs.Stands.{EndStands};
ghost use Rattle.wl_history.specs.Scripts.{asked, step_of};
ghost use Rattle.wl_history.specs.Safe.{Safe, text_aired};
ghost use Rattle.wl_history.specs.Sent.{Airs};

use wl_frame::read_once;
use wl_message::{a_message_is_read, a_message_is_short};
use wl_number::{
    a_draw_is_next, booked_once, highest_breaks_none, in_pair_order, pairs_in_order, stands_exactly,
};
use wl_window::{booked_after_ack, booked_after_booking, booked_after_giving_up};

/// What the crates below say of bookings, of windows that send, and of messages.
fn laws_below()
    ensures numbers { NumberLaws }
    ensures windows { WindowLaws }
    ensures messages { MessageLaws }
{
    a_message_is_read();
    a_message_is_short();
    stands_exactly();
    highest_breaks_none();
    a_draw_is_next();
    pairs_in_order();
    booked_after_booking();
    booked_after_ack();
    booked_after_giving_up()
}

/// What each call keeps of an end, whatever it is told: its bookings keep their order, lie below the
/// numbers that come next and leave no position out, each reserve and each booking is of a queued body,
/// hands hold what is booked, and windows keep to the sizes and the room that they may have.
pub fn an_end_keeps()
    ensures queue { (s : EndState) (l : ℕ) (body : List ℕ) → IsEnd s → length body ≤ msdu_limit → l ≢ management → IsEnd (after_queue l body s) }
    ensures message { (s : EndState) (m : Message) → IsEnd s → IsMessage m → IsEnd (after_queue management (message_octets m) s) }
    ensures reserve { (s : EndState) (thread : ℕ) (lane : Lane) → IsEnd s → IsLane lane → hand_of s.hands thread ≡ Empty → (lane_at s (lane_index lane)).sending.granted ≢ length (lane_at s (lane_index lane)).queue → IsEnd (after_reserve thread lane Reserved s) }
    ensures give_back { (s : EndState) (thread : ℕ) (lane : Lane) → IsEnd s → hand_of s.hands thread ≡ Reserve lane → IsEnd (after_book thread (Spent lane) s) }
    ensures book { (s : EndState) (thread : ℕ) (lane : Lane) → IsEnd s → hand_of s.hands thread ≡ Reserve lane → IsEnd (after_book thread (Booked lane (drawn s.numbers lane)) s) }
    ensures put_down { (s : EndState) (thread : ℕ) (lane : Lane) (n : Numbers) → IsEnd s → hand_of s.hands thread ≡ Booking lane n → IsEnd (with_hand thread Empty s) }
    ensures frame { (s : EndState) (lane : Lane) (n : Numbers) (link : ℕ) (octets : List ℕ) → IsEnd s → IsEnd (with_frame link octets lane n s) }
    ensures hear { (s : EndState) (lane : Lane) (number : ℕ) (a : Arrival) → IsEnd s → IsBodyOn lane a.body → IsEnd (after_hear lane number (receive_size s.setup (lane_index lane)) a s) }
    ensures store { (s : EndState) (lane : Lane) (number : ℕ) (a : Arrival) (moved : Moved Arrival) → IsEnd s → arrived (lane_at s (lane_index lane)).window number (receive_size s.setup (lane_index lane)) a ≡ CameStored moved → IsEnd (with_moved lane moved s) }
    ensures tell { (s : EndState) (lane : Lane) (body : List ℕ) → IsEnd s → IsBodyOn lane body → IsEnd (after_told lane body s) }
    ensures ack { (ack : Ack) (s : EndState) → IsEnd s → IsEnd (after_ack ack s) }
    ensures give_up { (lane : Lane) (to : ℕ) (s : EndState) → IsEnd s → IsEnd (after_bar_out lane to s) }
    ensures pass { (bar : Bar) (s : EndState) → IsEnd s → IsEnd (after_moved bar.lane (moved_by bar s) s) }
    ensures install { (o : Outcome) (s : EndState) → IsEnd s → IsEnd (after_install o s) }
    ensures power { (link : ℕ) (on : Bool) (s : EndState) → IsEnd s → IsEnd (with_made (switched link on s.setup) s) }
    ensures map_ask { (entries : List MapEntry) (s : EndState) → IsEnd s → AreEntries entries → IsEnd (with_made (map_asked entries (map_ask_answer entries s.setup) s.setup) s) }
    ensures map_teardown { (o : Outcome) (s : EndState) → IsEnd s → IsEnd (with_made (map_torn o s.setup) s) }
    ensures machine_given { (what : Machine) (o : Outcome) (s : EndState) → IsEnd s → IsEnd (with_made (given what o s.setup) s) }
    ensures turn { (o : Outcome) (s : EndState) → IsEnd s → IsEnd (after_turn o s) }
    ensures start { (start : EndStart) → 1 ≤ start.window → start.window ≤ 256 → IsEnd (started start) }
{
    laws_below()
}

/// A request for mappings that an end makes has octets: its token is one of an octet, it names a direction, and
/// its bitmaps are those of eight TIDs.
pub fn an_asked_mapping_is_a_message()
    ensures { (setup : Setup) (entries : List MapEntry) (token : ℕ) → AreEntries entries → setup.token < 256 → map_ask_answer entries setup ≡ Asked token → IsMessage (MapAsk token (changes_of entries)) }
{}

/// What an end stores of management it releases in the same step, that body alone, since the window of management has
/// room for one. So a message of the peer acts where it is stored.
pub fn management_goes_up_at_once()
    ensures { (s : EndState) (number : ℕ) (item : Arrival) (lane : Lane) (heard : ℕ) (n : Numbers) (up : List ℕ) → IsEnd s
        → hear_answer Management number (receive_size s.setup management) item s ≡ Stored lane heard n up → up ≡ item.numbers.pos ∷ [] }
{}

/// The state that a legal history leaves has what the words of the history say: what each end queued,
/// booked, aired and released, the key that it sends under, and what it has set up.
pub fn words_are_told()
    ensures { (text : Sealing) (start : Start) (steps : List Step) → Legal text start steps → (e : EndId) → EndStands text start e (end_of (state_of text start steps) e) steps }
{
    laws_below();
    pairs_in_order()
}

/// Every legal history is safe: whatever commands whatever threads give in whatever order, and
/// whatever the air loses, repeats or delays.
pub fn every_history_is_safe()
    ensures { (text : Sealing) (start : Start) (steps : List Step) → Legal text start steps → Safe text start steps }
{
    laws_below();
    booked_once();
    in_pair_order();
    pairs_in_order()
}

/// A command of a thread has one answer in a state.
pub fn one_answer()
    ensures { (text : Sealing) (thread : ℕ) (command : Command) (a : AirState) (o p : Outcome) → IsAnswer text thread command a o → IsAnswer text thread command a p → o ≡ p }
{
    read_once()
}

/// What was asked makes one legal history: two that were asked the same commands by the same threads
/// are the same.
pub fn one_history()
    ensures { (text : Sealing) (start : Start) (steps other : List Step) → Legal text start steps → Legal text start other → asked steps ≡ asked other → steps ≡ other }
{
    read_once()
}

/// What is to be opened is of one of the nine lanes, and its numbers are in their ranges.
pub fn what_opens_fits()
    ensures { (start : EndStart) (setup : Setup) (e : EndId) (link : ℕ) (octets : List ℕ) (reading : Result FrameValue Refusal) (c : Closed)
        → ReadAs octets reading → judged start setup e link reading ≡ ToOpen c → IsClosed c }
{}

/// What is answered before the opening stores nothing and acknowledges nothing.
pub fn what_is_judged_is_plain()
    ensures { (start : EndStart) (setup : Setup) (e : EndId) (link : ℕ) (reading : Result FrameValue Refusal) (outcome : Outcome)
        → judged start setup e link reading ≡ Answered outcome → IsPlain outcome }
{}

/// A booking is found at its position, where the bookings of its lane keep their order.
pub fn a_booking_is_found()
    ensures { (lanes : List (List Numbers)) (lane : Lane) (n : Numbers) → OrderRule lanes → Contains (list_of lanes lane) n → at_position n.pos (list_of lanes lane) ≡ Some n }
{}

/// A frame with another sequence number is the frame that has it in the place of its own.
pub fn another_number()
    ensures { (number : ℕ) (f : FrameValue) → IsHeader f.header → number < 4096 → with_number number (spelling f) ≡ spelling (record f { header = record f.header { number = number } }) }
{}

/// Whatever is aired isn't done: a position that was acknowledged or given up is never aired again.
pub fn what_is_done_stays_down()
    ensures { (text : Sealing) (start : Start) (step : Step) (before : List Step) → Legal text start (step ∷ before) → (e : EndId) (lane : Lane) (n : Numbers) → Airs e step lane n
        → is_done (lane_at (end_of (state_of text start before) e) (lane_index lane)).sending n.pos ≡ false }
{}

/// A retry is the same: all frames that an end airs of a position carry one key number, one packet number
/// and one sealed text, whatever links they go over and whatever key is sent under by then.
pub fn a_retry_is_the_same()
    ensures { (text : Sealing) (start : Start) (steps : List Step) → Legal text start steps → (e : EndId) (a b : Airing) → Contains (airings start e steps) a → Contains (airings start e steps) b
        → a.lane ≡ b.lane → a.numbers.pos ≡ b.numbers.pos → (a.numbers ≡ b.numbers) × (text_aired text (start_of start e) e a ≡ text_aired text (start_of start e) e b) }
{
    laws_below();
    pairs_in_order()
}

/// After a turn the key is the next one, and what is booked first under it has packet number 1.
pub fn a_turn_begins_anew()
    ensures { (text : Sealing) (start : Start) (thread : ℕ) (e : EndId) (key : ℕ) (before : List Step) → Legal text start (step_of thread (Turn e) (Turned key) ∷ before) → (lane : Lane)
        → (key ≡ send_key (start_of start e) e before + 1)
        × ((drawn (end_of (state_of text start (step_of thread (Turn e) (Turned key) ∷ before)) e).numbers lane).key ≡ key)
        × ((drawn (end_of (state_of text start (step_of thread (Turn e) (Turned key) ∷ before)) e).numbers lane).pn ≡ 1) }
{
    laws_below();
    pairs_in_order()
}
