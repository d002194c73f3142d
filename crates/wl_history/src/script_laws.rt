//! Laws of scripts, each the contract of a function that does nothing.

ghost use Rattle.std.specs.Prelude.{◌≡◌, List};
ghost use Rattle.wl_frame.specs.Sealing.{Sealing};
ghost use Rattle.wl_history.specs.declared.opened.Opened.{Opened};
ghost use Rattle.wl_history.specs.declared.script.Item.{Item};
ghost use Rattle.wl_history.specs.declared.start.Start.{Start};
ghost use Rattle.wl_history.specs.declared.step.Step.{Step};
ghost use Rattle.wl_history.specs.Scripts.{Plays, Stops};

use crate::laws::one_answer;

/// A script is played in one way: it leaves one history, and stops in one.
pub fn played_once()
    ensures plays { (text : Sealing) (start : Start) (items : List Item) (a b : List Step) → Plays text start items a → Plays text start items b → a ≡ b }
    ensures stops { (text : Sealing) (start : Start) (items : List Item) (a b : List Step) (opened other : Opened) → Stops text start items a opened → Stops text start items b other → a ≡ b }
    ensures either { (text : Sealing) (start : Start) (items : List Item) (a b : List Step) (opened : Opened) → Plays text start items a → Stops text start items b opened → ⊥ }
{
    one_answer()
}
