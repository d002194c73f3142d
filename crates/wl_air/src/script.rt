//! Scripts, done one command after the other.

ghost use Rattle.std.specs.Prelude.{◌≡◌, ◌+◌, ◌*◌, ◌≤◌, length, None, Some, OnOk, IfErr};
ghost use Rattle.std.specs.List.{AllByRecursion};
ghost use Rattle.wl_history.specs.declared.command.Command.{Command};
ghost use Rattle.wl_history.specs.Legal.{step_limit};
ghost use Rattle.wl_history.specs.Scripts.{Cursor as ScriptCursor, Performed, asks, plains};
ghost use Rattle.wl_air.specs.Playing.{PlainFits, IsWorldFault};
ghost use Rattle.wl_air.specs.World.{Stands};

use crate::fault::StepFault;
use crate::world::World;
use wl_frame::Sealer;
use wl_history::{Cursor, Script};

impl World {
    /// Does all that a script asks for, in order, as thread 0.
    ///
    /// `Forged` exactly where a frame is to be heard that opens and that its sender never booked;
    /// the steps before it were made. After `Memory` the steps so far were made too.
    ///
    /// Conditions: with three steps for each thing asked for the journal has at most 1,048,576, and the
    /// members of each command are those of a scenario with this start.
    pub fn play<Z: Sealer>(&mut self, script: &Script, z: &Z) -> Result<(), StepFault>
        requires room { length self.old.steps + 3 * length (plains script.now) ≤ step_limit }
        requires fits { AllByRecursion (PlainFits self.old.start) (plains script.now) }
        ensures start { self.new.start ≡ self.old.start }
        ensures stands { Stands (Z.text z.now) self.old → Stands (Z.text z.now) self.new }
        ensures done { OnOk result ((to : ScriptCursor) × Performed 0 script.now self.old.steps self.new.steps to × (asks to ≡ None)) }
        ensures fault { IfErr result (λ fault. (to : ScriptCursor) × (command : Command) × Performed 0 script.now self.old.steps self.new.steps to × (asks to ≡ Some command) × IsWorldFault (Z.text z.now) self.new command fault) }
    {
        let mut cursor = Cursor::start();
        'steps: while let Some(command) = cursor.asks(self.alloc(), script)? {
            let outcome = self.step(0, command, z)?;
            cursor.advance(script, &outcome);
        }
        Ok(())
    }
}
