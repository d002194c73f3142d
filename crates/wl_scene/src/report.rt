//! The line of a report.

ghost use Rattle.std.specs.Prelude.{◌≡◌, ◌∷◌, [], ◌+◌, List, OnOk, IfOk, MatchOption, drop};
ghost use Rattle.serde_json.specs.Data.{object, no_members};
ghost use Rattle.wl_scene.specs.Built.{built};
ghost use Rattle.wl_scene.specs.Objects.{Named, with_members, object_of};
ghost use Rattle.wl_scene.specs.Report.{lane_names, count_shown, runs_shown, named_if, by_lane, map_data, totals_data, report_data, report_text};

use crate::object::Object;
use crate::totals::Totals;
use std::alloc::Global;
use wl_elem::{Bytes, Memory};
use wl_history::Positions;

/// The name of the lane at a place. None from 9 up.
fn lane_name(place: usize) -> Option<&'static str>
    ensures { MatchOption result (drop place lane_names ≡ []) (λ name. drop place lane_names ≡ name.now ∷ drop (place + 1) lane_names) }
{
    match place {
        0 => Some("0"),
        1 => Some("1"),
        2 => Some("2"),
        3 => Some("3"),
        4 => Some("4"),
        5 => Some("5"),
        6 => Some("6"),
        7 => Some("7"),
        8 => Some("m"),
        _ => None,
    }
}

impl Object {
    /// Puts a lane's count in, unless it is 0.
    fn put_count(&mut self, name: &str, n: u32) -> Result<(), Memory>
        ensures { OnOk result ((rest : List Named) → with_members rest (built self.new) ≡ with_members (named_if name.now (count_shown n) rest) (built self.old)) }
    {
        if n == 0 {
            return Ok(());
        }
        self.put_number(name, u64::from(n))
    }

    /// Puts a lane's positions in, unless there are none.
    fn put_positions(&mut self, name: &str, positions: &[u32]) -> Result<(), Memory>
        ensures { OnOk result ((rest : List Named) → with_members rest (built self.new) ≡ with_members (named_if name.now (runs_shown positions.now) rest) (built self.old)) }
    {
        match positions {
            [] => Ok(()),
            [first, rest @ ..] => self.put_runs(name, *first, rest),
        }
    }

    /// The counts of the lanes that have one.
    fn of_counts(alloc: Global, counts: &[u32]) -> Result<Object, Memory>
        ensures { IfOk result (λ o. object (built o) ≡ object_of (by_lane count_shown lane_names counts.now)) }
    {
        let mut lanes = Object::new(alloc);
        'lanes: for (place, n) in counts.iter().enumerate() {
            match lane_name(place) {
                Some(name) => lanes.put_count(name, *n)?,
                None => return Ok(lanes),
            }
        }
        Ok(lanes)
    }

    /// The positions of the lanes that have some.
    fn of_released(alloc: Global, released: &[Positions]) -> Result<Object, Memory>
        ensures { IfOk result (λ o. object (built o) ≡ object_of (by_lane runs_shown lane_names released.now)) }
    {
        let mut lanes = Object::new(alloc);
        'lanes: for (place, positions) in released.iter().enumerate() {
            match lane_name(place) {
                Some(name) => lanes.put_positions(name, positions.as_slice())?,
                None => return Ok(lanes),
            }
        }
        Ok(lanes)
    }

    /// The link sets in force.
    fn of_map(alloc: Global, totals: &Totals) -> Result<Object, Memory>
        ensures { IfOk result (λ o. object (built o) ≡ map_data totals.now) }
    {
        let mut map = Object::new(alloc);
        map.put_sets("dl", &totals.dl)?;
        map.put_sets("ul", &totals.ul)?;
        Ok(map)
    }

    /// What one end reports.
    #[tactic(auto, unfolding(crate::specs::Report::totals_data))]
    fn of_totals(alloc: Global, totals: &Totals) -> Result<Object, Memory>
        ensures { IfOk result (λ o. object (built o) ≡ totals_data totals.now) }
    {
        let mut part = Object::new(alloc);
        part.put_number("aired", u64::from(totals.aired))?;
        part.put_number("booked", u64::from(totals.booked))?;
        part.put_number("emlsr", u64::from(totals.emlsr.bits()))?;
        part.put_number("key", u64::from(totals.key))?;
        part.put_links("links", totals.links)?;
        part.put_object("map", Object::of_map(alloc, totals)?)?;
        part.put_number("newest", u64::from(totals.newest))?;
        part.put_object("queued", Object::of_counts(alloc, &totals.queued)?)?;
        part.put_object(
            "released",
            Object::of_released(alloc, totals.released.as_slice())?,
        )?;
        Ok(part)
    }

    /// What both ends report, the number of steps, and the version.
    fn of_report(alloc: Global, ap: &Totals, sta: &Totals, steps: u32) -> Result<Object, Memory>
        ensures { IfOk result (λ o. object (built o) ≡ report_data ap.now sta.now steps) }
    {
        let mut report = Object::new(alloc);
        report.put_object("ap", Object::of_totals(alloc, ap)?)?;
        report.put_object("sta", Object::of_totals(alloc, sta)?)?;
        report.put_number("steps", u64::from(steps))?;
        report.put_number("version", 1)?;
        Ok(report)
    }
}

/// The line of a report: an object in compact form of what both ends report, the number of steps, and
/// the version 1, and `\n`.
///
/// An end's part has `aired`, `booked`, `emlsr`, `key`, `links` (IDs, ascending), `map` (`dl` and
/// `ul`, eight link sets as numbers), `newest`, `queued` (lane to count) and `released` (lane to the
/// maximal runs `[first,last]` of the positions), the lanes named `"0"` to `"7"` and `"m"`, each only
/// where it has something. Lists of more than nine lanes are shown up to the ninth. `Memory` where
/// there was none for the text.
#[tactic(auto, unfolding(crate::specs::Report::report_text))]
pub fn report_line(alloc: Global, ap: &Totals, sta: &Totals, steps: u32) -> Result<Bytes, Memory>
    ensures { IfOk result (λ text. text ≡ report_text ap.now sta.now steps) }
{
    let mut text = Object::of_report(alloc, ap, sta, steps)?.into_text()?;
    text.push_str("\n")?;
    Ok(Bytes::from_vec(text.into_bytes()))
}
