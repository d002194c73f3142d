//! Worlds: two ends, and the history of all that they did.

ghost use Rattle.std.specs.Prelude.{◌≡◌, ◌∷◌, ◌+◌, ◌<◌, ◌≤◌, ℕ, List, [], length, IfOk, IfErr, OnOk, OnErr};
ghost use Rattle.wl_history.specs.declared.opened.Opened.{Opened};
ghost use Rattle.wl_history.specs.declared.step.Step.{Step};
ghost use Rattle.wl_history.specs.Ends.{IsStart};
ghost use Rattle.wl_history.specs.Legal.{Fits, Forges, step_limit};
ghost use Rattle.wl_history.specs.Scripts.{step_of};
ghost use Rattle.wl_history.specs.Safe.{Safe};
ghost use Rattle.wl_air.specs.Acting.{CanDo, IsStepFault};
ghost use Rattle.wl_air.specs.World.{IsRoomy};

use crate::air::Air;
use crate::fault::StepFault;
use std::alloc::Global;
use std::marker::Model;
use wl_elem::{EndId, Memory};
use wl_end::End;
use wl_frame::Sealer;
use wl_history::{Arrival, Command, Journal, Outcome, Start, Step, Steps, every_history_is_safe};
use wl_window::{requested_near, stored_near};

/// Two ends, the air between them, and the history of all steps that they made.
#[derive(Debug, Drop)]
pub struct World {
    alloc: Global,
    air: Air,
    journal: Journal,
}

impl Model for World {
    ghost use Rattle.std.specs.Prelude.{length};
    ghost use Rattle.wl_air.specs.World.{WorldState, IsWorld, world_of};

    ghost Value = { WorldState };

    ghost view = { λ w. world_of w.journal.start w.air w.journal.steps };

    ghost invariant = { λ w. IsWorld w.journal.start w.air (length w.journal.steps) };
}

/// The command of the latest step.
fn latest(steps: &Steps) -> &Command
    requires { (step : Step) × (before : List Step) × (steps.now ≡ step ∷ before) }
    ensures { (step : Step) (before : List Step) → steps.now ≡ step ∷ before → result.now ≡ step.command }
{
    match steps.as_slice().last() {
        Some(step) => &step.command,
        None => unreachable!(),
    }
}

impl World {
    ghost use Rattle.wl_elem.specs.declared.lane.EndId.{EndId};
    ghost use Rattle.wl_frame.specs.Sealing.{Sealing};
    ghost use Rattle.wl_history.specs.EndState.{IsEnd};
    ghost use Rattle.wl_history.specs.AirState.{begun, state_of};
    ghost use Rattle.wl_air.specs.Playing.{IsWorldFault};
    ghost use Rattle.wl_air.specs.World.{IsBounded, Stands, end_of, world_of};

    /// Two ends that did nothing yet. `Memory` where there was none for their windows.
    ///
    /// Condition: the two starts agree, `ap` is that of the AP and `sta` that of the station, the
    /// window is 1 to 256, and the first packet number 1 to 2^48 - 1.
    pub fn new(alloc: Global, start: &Start) -> Result<World, Memory>
        requires { IsStart start.now }
        ensures begun { IfOk result (λ w. w ≡ world_of start.now (begun start.now) []) }
        ensures stands { IfOk result (λ w. (text : Sealing) → Stands text w) }
    {
        let kept = start.copy(alloc)?;
        let air = Air::new(alloc, start)?;
        let journal = Journal {
            start: kept,
            steps: Steps::new(alloc),
        };
        Ok(World {
            alloc,
            air,
            journal,
        })
    }

    /// Lets an end do a command of a thread, and notes the step in the journal.
    ///
    /// `Forged` exactly where a frame is heard that opens, and its sender has no booking of this key,
    /// nonce, additional data and body; `Memory` where there was none. Both leave the world as it
    /// was. A world that stands for the sealer's meaning stands for it afterwards, and its history is
    /// safe.
    ///
    /// Conditions: the journal has fewer than 1,048,576 steps, and the command's members are those of
    /// a scenario with this start.
    pub fn step<Z: Sealer>(
        &mut self,
        thread: u16,
        command: Command,
        z: &Z,
    ) -> Result<Outcome, StepFault>
        requires room { length self.old.steps < step_limit }
        requires fits { Fits self.old.start command }
        ensures start { self.new.start ≡ self.old.start }
        ensures stepped { IfOk result (λ o. self.new.steps ≡ step_of thread command o ∷ self.old.steps) }
        ensures stands { Stands (Z.text z.now) self.old → Stands (Z.text z.now) self.new }
        ensures safe { Stands (Z.text z.now) self.old → Safe (Z.text z.now) self.new.start self.new.steps }
        ensures unforged { IfOk result (λ o. Stands (Z.text z.now) self.old → (opened : Opened) → Forges (Z.text z.now) command (state_of (Z.text z.now) self.old.start self.old.steps) opened → ⊥) }
        ensures fault { IfErr result (IsWorldFault (Z.text z.now) self.old command) }
        ensures unchanged { OnErr result (self.new ≡ self.old) }
    {
        every_history_is_safe();
        stored_near::<Arrival>();
        requested_near::<Arrival>();
        command.test();
        // The room for the step is taken first: what an end did can't be undone.
        self.journal.steps.push(Step {
            thread,
            command,
            outcome: Outcome::Nothing,
        })?;
        let command = latest(&self.journal.steps);
        match self.air.act(self.alloc, thread, command, z) {
            Ok((outcome, again)) => {
                self.journal.steps.settle(again);
                Ok(outcome)
            }
            Err(fault) => {
                self.journal.steps.take_back();
                Err(fault)
            }
        }
    }

    /// Where it takes memory.
    pub(crate) fn alloc(&self) -> Global {
        self.alloc
    }

    /// The history so far.
    pub fn journal(&self) -> &Journal
        ensures start { result.now.start ≡ self.now.start }
        ensures steps { result.now.steps ≡ self.now.steps }
    {
        &self.journal
    }

    /// The history so far. It takes no memory.
    pub fn into_journal(self) -> Journal
        ensures start { result.start ≡ self.start }
        ensures steps { result.steps ≡ self.steps }
    {
        self.journal
    }

    /// An end. It booked at most as many positions, and aired at most as many frames, as there are
    /// steps.
    pub fn end_of(&self, end: EndId) -> &End
        ensures value { result.now ≡ end_of self.now end }
        ensures sound { IsEnd result.now }
        ensures bounded { IsBounded (length self.now.steps) result.now }
        ensures few { length self.now.steps ≤ step_limit }
    {
        let found = self.air.end(end);
        found.test();
        found
    }
}
