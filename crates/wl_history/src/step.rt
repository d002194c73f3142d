//! Steps and journals.

ghost use Rattle.std.specs.Prelude.{◌≡◌, ◌∷◌, [], OnOk, OnErr, reverse};

use crate::command::Command;
use crate::outcome::Outcome;
use crate::start::Start;
use std::alloc::Global;
use std::marker::Model;
use wl_elem::Memory;

/// One step: who told what, and what was answered.
#[derive(Debug, Drop)]
pub struct Step {
    /// The thread.
    pub thread: u16,
    /// The command.
    pub command: Command,
    /// The answer.
    pub outcome: Outcome,
}

/// The steps of a history. Contracts see the latest first, since what a step means is said by those
/// before it; `as_slice` has the earliest first.
#[derive(Debug, Drop)]
pub struct Steps {
    list: Vec<Step>,
}

impl Model for Steps {
    ghost use Rattle.std.specs.Prelude.{List, reverse};
    ghost use Rattle.wl_history.specs.declared.step.Step.{Step};

    ghost Value = { List Step };

    ghost view = { λ s. reverse s.list.items };
}

impl Steps {
    ghost use Rattle.std.specs.Prelude.{List};
    ghost use Rattle.wl_history.specs.declared.step.Step.{Step};

    /// No steps. It takes no memory.
    pub fn new(alloc: Global) -> Steps
        ensures { result ≡ [] }
    {
        Steps {
            list: Vec::new(alloc),
        }
    }

    /// Adds a step. After `Memory` the steps are as they were.
    pub fn push(&mut self, step: Step) -> Result<(), Memory>
        ensures ok { OnOk result (self.new ≡ step ∷ self.old) }
        ensures err { OnErr result (self.new ≡ self.old) }
    {
        self.list.push(step)?;
        Ok(())
    }

    /// Gives the latest step another answer. It takes no memory.
    pub fn settle(&mut self, outcome: Outcome)
        requires { (step : Step) × (before : List Step) × (self.old ≡ step ∷ before) }
        ensures { (step : Step) (before : List Step) → self.old ≡ step ∷ before → self.new ≡ record { thread = step.thread; command = step.command; outcome = outcome } ∷ before }
    {
        let Some(step) = self.list.pop() else {
            return;
        };
        let step = Step {
            thread: step.thread,
            command: step.command,
            outcome,
        };
        match self.list.push(step) {
            Ok(()) => (),
            Err(_) => unreachable!(),
        }
    }

    /// Takes the latest step back. It takes no memory.
    pub fn take_back(&mut self)
        ensures { (step : Step) (before : List Step) → self.old ≡ step ∷ before → self.new ≡ before }
    {
        self.list.pop();
    }

    /// The steps, the earliest first.
    pub fn as_slice(&self) -> &[Step]
        ensures { result.now ≡ reverse self.now }
    {
        self.list.as_slice()
    }
}

/// A history: what the ends started with, and the steps.
#[derive(Debug, Drop)]
pub struct Journal {
    /// What the ends started with.
    pub start: Start,
    /// The steps.
    pub steps: Steps,
}
