//! The text of a journal.

ghost use Rattle.std.specs.Prelude.{◌≡◌, ◌++◌, IfOk, OnOk, reverse};
ghost use Rattle.std.specs.String.{string_bytes};
ghost use Rattle.wl_scene.specs.Lines.{line, journal_lines};

use crate::object::Object;
use std::alloc::Global;
use wl_elem::{Bytes, Memory};
use wl_history::{Journal, Step};

/// Adds the line of a step.
#[tactic(auto, unfolding(crate::specs::Lines::line))]
fn push_line(alloc: Global, out: &mut String, step: &Step) -> Result<(), Memory>
    ensures { OnOk result (string_bytes out.new ≡ string_bytes out.old ++ line step.now) }
{
    let text = Object::of_step(alloc, step)?.into_text()?;
    out.push_str(text.as_str())?;
    out.push_str("\n")?;
    Ok(())
}

/// The lines of steps, the earliest first.
fn lines_of(alloc: Global, steps: &[Step]) -> Result<String, Memory>
    ensures { IfOk result (λ text. string_bytes text ≡ journal_lines (reverse steps.now)) }
{
    let mut out = String::new(alloc);
    'steps: for step in steps {
        push_line(alloc, &mut out, step)?;
    }
    Ok(out)
}

/// The text of a journal: for each step, the earliest first, one line of JSON that ends with `\n`.
///
/// A line is an object in compact form with its members in the byte order of their names: `t` (the
/// thread), `do` and `end` with the command's members, and `out` with the answer's. Of a body that is
/// queued and of octets that are injected their `size` is shown, of a forged frame its link alone, and of
/// what is asked for nothing. `lane` is a number, or `"m"` for management; `nth` is null where it wasn't
/// given. `Memory` where there was none for the text.
pub fn journal_text(alloc: Global, journal: &Journal) -> Result<Bytes, Memory>
    ensures { IfOk result (λ text. text ≡ journal_lines journal.now.steps) }
{
    let text = lines_of(alloc, journal.steps.as_slice())?;
    Ok(Bytes::from_vec(text.into_bytes()))
}
