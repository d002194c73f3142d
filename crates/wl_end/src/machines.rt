//! What an end is told to do with its radios, and to ask of its peer.

ghost use Rattle.std.specs.Prelude.{◌≡◌, ◌-◌, ◌^◌, ◌<◌, length, Some, None, IfOk, OnOk, OnErr};
ghost use Rattle.wl_elem.specs.Lanes.{lane_index};
ghost use Rattle.wl_elem.specs.declared.lane.Lane.{Lane};
ghost use Rattle.wl_message.specs.Message.{message_octets, IsMessage};
ghost use Rattle.wl_history.specs.Machines.{AreEntries, next_token, switched, map_ask_answer, map_asked, teardown_answer, map_torn, give_up_answer, given};
ghost use Rattle.wl_history.specs.Plain.{IsPlain};

use crate::end::End;
use wl_elem::{Lane, LinkId, Memory};
use wl_history::{Machine, Outcome, an_asked_mapping_is_a_message, an_end_keeps};
use wl_map::MapRefusal;
use wl_message::{MapEntry, Message, a_message_is_short, changes_of, encode_message};

/// The token after this one: 1 to 255, and then 1 again.
fn next_token(token: u8) -> u8
    ensures { result ≡ next_token token }
{
    if token == 255 { 1 } else { token + 1 }
}

impl End {
    ghost use Rattle.wl_history.specs.EndState.{IsEnd, lane_at, management, after_queue, with_made};

    /// Switches the radio of a link on or off. It takes no memory.
    pub fn power(&mut self, link: LinkId, on: bool)
        ensures after { self.new ≡ with_made (switched link on self.old.setup) self.old }
        ensures sound { IsEnd self.new }
    {
        an_end_keeps();
        self.setup.radios[usize::from(link.get())] = on;
    }

    /// Puts a message at the end of the queue of management. After `Memory` nothing has changed.
    fn tell(&mut self, message: &Message) -> Result<(), Memory>
        requires message { IsMessage message.now }
        requires room { length (lane_at self.old management).queue < 2 ^ 32 - 8192 }
        ensures after { OnOk result (self.new ≡ after_queue management (message_octets message.now) self.old) }
        ensures unchanged { OnErr result (self.new ≡ self.old) }
    {
        an_end_keeps();
        a_message_is_short();
        let body = encode_message(self.alloc, message)?;
        self.lanes.at_mut(&Lane::Management).queue(body)
    }

    /// Asks the peer for what entries ask for: the request is queued, and its token is the one after the
    /// last. No mapping changes until a reply to it is released.
    ///
    /// Busy with its token where an own request stands. NotValid where the entries name no direction or
    /// one twice, or where a mapping would leave a TID without a link or have one that isn't set up; so
    /// it is with no link set up. They change nothing. After `Memory` nothing has changed.
    ///
    /// Conditions: the entries have the bitmaps of eight TIDs, as their types say, and the queue of
    /// management is shorter than 2^32 - 8,192.
    pub fn map_ask(&mut self, entries: &[MapEntry]) -> Result<Outcome, Memory>
        requires entries { AreEntries entries.now }
        requires room { length (lane_at self.old management).queue < 2 ^ 32 - 8192 }
        ensures answer { IfOk result (λ o. o ≡ map_ask_answer entries.now self.old.setup) }
        ensures plain { IfOk result IsPlain }
        ensures after { IfOk result (λ o. self.new ≡ with_made (map_asked entries.now o self.old.setup) self.old) }
        ensures unchanged { OnErr result (self.new ≡ self.old) }
        ensures sound { IsEnd self.new }
    {
        an_end_keeps();
        an_asked_mapping_is_a_message();
        let token = next_token(self.setup.token);
        let changes = changes_of(entries);
        let mut maps = self.setup.maps;
        match maps.ask(token, changes.down(), changes.up()) {
            Ok(_) => (),
            Err(MapRefusal::Busy(token)) => return Ok(Outcome::Busy { token }),
            Err(MapRefusal::NotValid) => return Ok(Outcome::NotValid),
        }
        self.tell(&Message::MapAsk { token, changes })?;
        self.setup.maps = maps;
        self.setup.token = token;
        Ok(Outcome::Asked { token })
    }

    /// Tears the mappings of both directions down, here at once and at the peer when it releases the
    /// message that is queued. An own request for mappings is closed.
    ///
    /// NotValid where no link is set up; nothing changes then. After `Memory` nothing has changed.
    ///
    /// Condition: the queue of management is shorter than 2^32 - 8,192.
    pub fn map_teardown(&mut self) -> Result<Outcome, Memory>
        requires room { length (lane_at self.old management).queue < 2 ^ 32 - 8192 }
        ensures answer { IfOk result (λ o. o ≡ teardown_answer self.old.setup) }
        ensures plain { IfOk result IsPlain }
        ensures after { IfOk result (λ o. self.new ≡ with_made (map_torn o self.old.setup) self.old) }
        ensures unchanged { OnErr result (self.new ≡ self.old) }
        ensures sound { IsEnd self.new }
    {
        an_end_keeps();
        if self.setup.links.bits() == 0 {
            return Ok(Outcome::NotValid);
        }
        self.tell(&Message::MapTeardown)?;
        self.setup.maps.teardown();
        Ok(Outcome::Sent)
    }

    /// Gives the own request of a machine up that no reply was taken of, and answers its token; Nothing
    /// where none stands. It takes no memory.
    pub fn give_up(&mut self, what: Machine) -> Outcome
        ensures answer { result ≡ give_up_answer what self.old.setup }
        ensures plain { IsPlain result }
        ensures after { self.new ≡ with_made (given what result self.old.setup) self.old }
        ensures sound { IsEnd self.new }
    {
        an_end_keeps();
        let given = match what {
            Machine::Map => self.setup.maps.give_up(),
        };
        match given {
            Some(token) => Outcome::Given { token },
            None => Outcome::Nothing,
        }
    }
}
