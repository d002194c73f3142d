//! Why a step wasn't made.

ghost use Rattle.std.specs.Prelude.{◌≡◌};
ghost use Rattle.wl_air.specs.declared.fault.StepFault.TheVariants.{Memory};

use wl_elem;
use wl_history::Opened;

/// Why a step wasn't made. Nothing has changed then.
#[derive(Debug, Drop)]
pub enum StepFault {
    /// The frame opens, and its sender has no booking of what it opens to: this was opened.
    Forged(Opened),
    /// There was no memory.
    Memory,
}

impl From<wl_elem::Memory> for StepFault {
    ghost from_gives = { λ _ e. e ≡ Memory };

    fn from(_e: wl_elem::Memory) -> StepFault {
        StepFault::Memory
    }
}
