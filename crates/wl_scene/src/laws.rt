//! Laws of the definitions, each the contract of a function that does nothing.

ghost use Rattle.std.specs.Prelude.{◌≡◌, ℕ, List, Result};
ghost use Rattle.wl_elem.specs.declared.lane.EndId.{EndId};
ghost use Rattle.wl_frame.specs.Sealing.{Sealing};
ghost use Rattle.wl_history.specs.declared.start.Start.{Start};
ghost use Rattle.wl_history.specs.declared.step.Step.{Step};
ghost use Rattle.wl_history.specs.EndState.{EndState, IsEnd};
ghost use Rattle.wl_history.specs.Stands.{EndStands};
ghost use Rattle.wl_scene.specs.declared.scenario.Scenario.{Scenario};
ghost use Rattle.wl_scene.specs.declared.totals.Totals.{Totals};
ghost use Rattle.wl_scene.specs.Account.{IsTotals, Reports};
ghost use Rattle.wl_scene.specs.Report.{runs};
ghost use Rattle.wl_scene.specs.Runs.{AreRuns};
ghost use Rattle.wl_scene.specs.Scene.{SceneOf};

/// A text is read in one way: as one scenario, or as refused at one place, and never both.
pub fn read_once()
    ensures { (text : List ℕ) (a b : Result Scenario ℕ) → SceneOf text a → SceneOf text b → a ≡ b }
{}

/// Each text is read: as a scenario, or as refused.
pub fn read_or_refused()
    ensures { (text : List ℕ) → (reading : Result Scenario ℕ) × SceneOf text reading }
{}

/// The runs of a list of positions give the list back, and none begins where the one before it could
/// have gone on.
pub fn runs_are_maximal()
    ensures { (positions : List ℕ) → AreRuns (runs positions) positions }
{}

/// What an end reports of its state is what the words of its history say: where an end stands where
/// these steps leave it, its totals are those of the steps.
pub fn totals_are_reported()
    ensures { (text : Sealing) (start : Start) (e : EndId) (s : EndState) (steps : List Step) (t : Totals) → IsEnd s → EndStands text start e s steps → IsTotals s t → Reports start e steps t }
{}

/// A history leaves one report of each end.
pub fn reported_once()
    ensures { (start : Start) (e : EndId) (steps : List Step) (t u : Totals) → Reports start e steps t → Reports start e steps u → t ≡ u }
{}
