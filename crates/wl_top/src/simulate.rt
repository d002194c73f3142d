//! What `run` makes of a scenario.

ghost use Rattle.std.specs.Prelude.{◌≡◌, ℕ, List, [], IfOk, IsTrue, is_some, Ok, Some};
ghost use Rattle.wl_frame.specs.Sealing.{Sealing};
ghost use Rattle.wl_air.specs.World.{Stands};
ghost use Rattle.wl_scene.specs.declared.scenario.Scenario.{Scenario};
ghost use Rattle.wl_scene.specs.Scene.{SceneOf};
ghost use Rattle.wl_scene.specs.Sound.{IsSound};
ghost use Rattle.wl_top.specs.Simulated.{BrokenOff, IsOutput, IsSimulated, SimulatedSafe, HasRun, PlayedTo, journal_in, journal_of};

use crate::ending::Ending;
use std::alloc::Global;
use wl_air::{StepFault, World};
use wl_elem::{Bytes, Memory};
use wl_frame::Sealer;
use wl_history::{Journal, every_history_is_safe};
use wl_scene::{Scenario, SceneFault, journal_text, read_scenario, report_text};

/// What came of the text of a scenario.
#[derive(Drop)]
pub(crate) enum Simulated {
    /// It is no scenario, for what stands at this place.
    Refused(u64),
    /// There was no memory for it or for its world.
    Unmade,
    /// There was no memory for a step or for the texts; the steps made.
    Halted(Journal),
    /// The scenario was done to its end, or to a frame that its sender never booked.
    Ran {
        /// Done or Forged.
        ending: Ending,
        /// The history.
        journal: Journal,
        /// Its texts.
        out: Bytes,
    },
}

/// The texts of a world: the journal's, then the report's.
fn texts_of(alloc: Global, world: &World) -> Result<Bytes, Memory>
    ensures { IfOk result (λ out. (text : Sealing) → Stands text world.now → IsOutput world.now.start world.now.steps out) }
{
    let mut out = journal_text(alloc, world.journal())?;
    let report = report_text(alloc, world.journal(), world)?;
    out.extend(report.as_slice())?;
    Ok(out)
}

/// The history of a world that came to this ending, and its texts.
fn told(alloc: Global, world: World, ending: Ending) -> Simulated
    ensures journal { journal_in result ≡ Some (journal_of world) }
    ensures ran { (text : Sealing) (scene : Scenario) (input : List ℕ) → SceneOf input (Ok scene) → world.start ≡ scene.start → HasRun text scene ending world.steps → Stands text world → IsSimulated text input result }
    ensures safe { (text : Sealing) → Stands text world → SimulatedSafe text result }
{
    every_history_is_safe();
    match texts_of(alloc, &world) {
        Ok(out) => Simulated::Ran {
            ending,
            journal: world.into_journal(),
            out,
        },
        Err(_) => Simulated::Halted(world.into_journal()),
    }
}

/// What came of a world on which a scenario was broken off, by this fault.
fn broken_off(alloc: Global, world: World, fault: StepFault) -> Simulated
    ensures journal { journal_in result ≡ Some (journal_of world) }
    ensures simulated { (text : Sealing) (scene : Scenario) (input : List ℕ) → SceneOf input (Ok scene) → world.start ≡ scene.start → BrokenOff text scene world.steps fault → Stands text world → IsSimulated text input result }
    ensures safe { (text : Sealing) → Stands text world → SimulatedSafe text result }
{
    every_history_is_safe();
    let count = world.journal().steps.as_slice().len() as u64;
    match fault {
        StepFault::Forged(_) => return told(alloc, world, Ending::Forged(count)),
        StepFault::Memory => return Simulated::Halted(world.into_journal()),
    }
}

/// What came of a world on which a scenario was played, with this result.
fn came(alloc: Global, world: World, played: Result<(), StepFault>) -> Simulated
    ensures journal { journal_in result ≡ Some (journal_of world) }
    ensures simulated { (text : Sealing) (scene : Scenario) (input : List ℕ) → SceneOf input (Ok scene) → world.start ≡ scene.start → PlayedTo text scene world.steps played → Stands text world → IsSimulated text input result }
    ensures safe { (text : Sealing) → Stands text world → SimulatedSafe text result }
{
    match played {
        Ok(()) => told(alloc, world, Ending::Done),
        Err(fault) => broken_off(alloc, world, fault),
    }
}

/// What a scenario makes of a world that did nothing yet. The world's history is told, however it ends.
fn play<Z: Sealer>(alloc: Global, world: World, scenario: &Scenario, z: &Z) -> Simulated
    requires sound { IsSound scenario.now }
    requires start { world.start ≡ scenario.now.start }
    requires begun { world.steps ≡ [] }
    requires stands { Stands (Z.text z.now) world }
    ensures journal { IsTrue (is_some (journal_in result)) }
    ensures simulated { (input : List ℕ) → SceneOf input (Ok scenario.now) → IsSimulated (Z.text z.now) input result }
    ensures safe { SimulatedSafe (Z.text z.now) result }
{
    let mut world = world;
    let played = world.play(&scenario.before, z);
    came(alloc, world, played)
}

/// Reads a scenario, does what it asks for, and makes the texts of what came of it.
pub(crate) fn simulate<Z: Sealer>(alloc: Global, input: &[u8], z: &Z) -> Simulated
    ensures simulated { IsSimulated (Z.text z.now) input.now result }
    ensures safe { SimulatedSafe (Z.text z.now) result }
{
    let scenario = match read_scenario(alloc, input) {
        Ok(scenario) => scenario,
        Err(SceneFault::Refused { place }) => return Simulated::Refused(place),
        Err(SceneFault::Memory) => return Simulated::Unmade,
    };
    let world = match World::new(alloc, &scenario.start) {
        Ok(world) => world,
        Err(_) => return Simulated::Unmade,
    };
    play(alloc, world, &scenario, z)
}
