//! Positions as the runs that they make.

ghost use Rattle.std.specs.Prelude.{◌≡◌, ◌++◌, ◌∷◌, ◌==◌, [], suc, ℕ, List, map, OnOk, IfOk};
ghost use Rattle.serde_json.specs.View.{view, items_view};
ghost use Rattle.wl_scene.specs.Report.{run, runs_from, runs, run_data, runs_data};

use serde_json::Value;
use std::alloc::Global;
use wl_elem::Memory;

/// The run that is added next, once a position that doesn't follow it comes.
#[derive(Clone, Copy)]
pub struct Open {
    /// Its first position.
    pub first: u32,
    /// Its last position so far.
    pub last: u32,
}

/// Whether a position comes directly behind another.
fn follows(last: u32, pos: u32) -> bool
    ensures { result ≡ (suc last == pos) }
{
    last < pos && pos - last == 1
}

/// A run as the list of its first and its last position.
fn pair(alloc: Global, begun: Open) -> Result<Value, Memory>
    ensures { IfOk result (λ value. view value ≡ run_data (run begun.first begun.last)) }
{
    let mut ends = Vec::with_capacity(alloc, 2)?;
    ends.push(Value::from(begun.first))?;
    ends.push(Value::from(begun.last))?;
    Ok(Value::from(ends))
}

/// Adds a run.
fn push_run(alloc: Global, values: &mut Vec<Value>, begun: Open) -> Result<(), Memory>
    ensures { OnOk result (map view values.new.items ≡ map view values.old.items ++ run_data (run begun.first begun.last) ∷ []) }
{
    let value = pair(alloc, begun)?;
    values.push(value)?;
    Ok(())
}

/// Takes the next position: into the open run where it follows it, else the open run is added and the
/// position opens the next. Answers the run that is open then.
fn next(alloc: Global, values: &mut Vec<Value>, begun: Open, pos: u32) -> Result<Open, Memory>
    ensures { IfOk result (λ after. (ps : List ℕ) → map view values.new.items ++ map run_data (runs_from after.first after.last ps) ≡ map view values.old.items ++ map run_data (runs_from begun.first begun.last (pos ∷ ps))) }
{
    if follows(begun.last, pos) {
        return Ok(Open {
            first: begun.first,
            last: pos,
        });
    }
    push_run(alloc, values, begun)?;
    Ok(Open {
        first: pos,
        last: pos,
    })
}

/// The maximal runs of positions that aren't none.
pub fn of_runs(alloc: Global, first: u32, rest: &[u32]) -> Result<Vec<Value>, Memory>
    ensures { IfOk result (λ values. items_view values.items ≡ runs_data (runs (first ∷ rest.now))) }
{
    let mut values = Vec::new(alloc);
    let mut begun = Open { first, last: first };
    'positions: for pos in rest {
        begun = next(alloc, &mut values, begun, *pos)?;
    }
    push_run(alloc, &mut values, begun)?;
    Ok(values)
}
