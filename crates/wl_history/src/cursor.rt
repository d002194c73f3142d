//! Cursors: where a thread stands in its script.

ghost use Rattle.std.specs.Prelude.{◌≡◌, ◌+◌, ◌-◌, ◌<◌, ◌≤◌, ◌^◌, ◌∷◌, [], length, List, Some, None, IfOk, OnErr, IfSome, MatchOption};
ghost use Rattle.wl_history.specs.declared.command.Command.{Command};
ghost use Rattle.wl_history.specs.declared.script.Item.{Item};
ghost use Rattle.wl_history.specs.Scripts.{asks, beginning, moved};
ghost use Rattle.wl_history.specs.Cursors.{cursor_of, item_from, left_behind, rounds_from};

use crate::command::Command;
use crate::outcome::Outcome;
use crate::script::{Item, Plain, Script, Stage};
use std::alloc::Global;
use wl_elem::Memory;

/// Where a thread stands in its script: how far it came, and what a send asks for next.
#[derive(Clone, Copy, Debug, PartialEq, Eq)]
pub struct Cursor {
    /// The item.
    item: usize,
    /// How often a loop was done.
    round: u32,
    /// The place in the item's body.
    place: usize,
    /// The stage of what stands there.
    stage: Stage,
}

impl Cursor {
    /// The beginning of any script.
    pub fn start() -> Cursor
        ensures { (script : List Item) → cursor_of script result ≡ beginning script }
    {
        Cursor {
            item: 0,
            round: 0,
            place: 0,
            stage: Stage::Reserving,
        }
    }

    /// Goes to the next round of this body where the round is over.
    fn turn(&mut self, times: u32, body: &[Plain])
        ensures kept { self.new ≡ record self.old { round = self.new.round; place = self.new.place } }
        ensures same { rounds_from (times - self.new.round) self.new.place body.now ≡ rounds_from (times - self.old.round) self.old.place body.now }
        ensures over { length body.now ≤ self.new.place → rounds_from (times - self.new.round) self.new.place body.now ≡ [] }
    {
        if self.place < body.len() {
            return;
        }
        if self.round >= times {
            return;
        }
        self.round += 1;
        self.place = 0;
    }

    /// What stands first of what is left of an item, which the cursor stands at then. None where nothing
    /// is left of it.
    fn find_in<'a>(&mut self, item: &'a Item) -> Option<&'a Plain>
        ensures kept { self.new ≡ record self.old { round = self.new.round; place = self.new.place } }
        ensures same { item_from item.now self.new.round self.new.place ≡ item_from item.now self.old.round self.old.place }
        ensures found { MatchOption result (item_from item.now self.old.round self.old.place ≡ []) (λ plain. item_from item.now self.old.round self.old.place ≡ plain.now ∷ item_from item.now self.new.round (self.new.place + 1)) }
        ensures within { IfSome result (λ plain. self.new.place + 1 < 2 ^ 64) }
    {
        let body = item.body();
        self.turn(item.times(), body);
        if self.place < body.len() && self.round < item.times() {
            return Some(&body[self.place]);
        }
        None
    }

    /// What stands first of what is left, which the cursor stands at then. None at the end.
    fn find<'a>(&mut self, script: &'a Script) -> Option<&'a Plain>
        ensures same { cursor_of script.now self.new ≡ cursor_of script.now self.old }
        ensures found { MatchOption result ((cursor_of script.now self.old).left ≡ []) (λ plain. (cursor_of script.now self.old).left ≡ plain.now ∷ left_behind script.now self.new) }
        ensures within { IfSome result (λ plain. self.new.place + 1 < 2 ^ 64) }
    {
        let items = script.as_slice();
        'items: while self.item < items.len() {
            if let Some(plain) = self.find_in(&items[self.item]) {
                return Some(plain);
            }
            self.item += 1;
            self.round = 0;
            self.place = 0;
        }
        None
    }

    /// The command that the thread asks for next of this script, again. None exactly at the script's end;
    /// `Memory` only where there is a command.
    pub fn asks(&self, alloc: Global, script: &Script) -> Result<Option<Command>, Memory>
        ensures ok { IfOk result (λ command. command ≡ asks (cursor_of script.now self.now)) }
        ensures err { OnErr result ((command : Command) × (asks (cursor_of script.now self.now) ≡ Some command)) }
    {
        let mut at = *self;
        let Some(plain) = at.find(script) else {
            return Ok(None);
        };
        match plain.command(alloc, at.stage) {
            Ok(command) => Ok(Some(command)),
            Err(memory) => Err(memory),
        }
    }

    /// Goes on behind this answer to what the thread asked for. Nothing moves at the script's end.
    pub fn advance(&mut self, script: &Script, outcome: &Outcome)
        ensures { cursor_of script.now self.new ≡ moved outcome.now (cursor_of script.now self.old) }
    {
        let Some(plain) = self.find(script) else {
            return;
        };
        match plain.goes_on(self.stage, outcome) {
            Some(stage) => self.stage = stage,
            None => {
                self.place += 1;
                self.stage = Stage::Reserving;
            }
        }
    }
}
