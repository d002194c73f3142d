//! Calls on the texts of journals and reports.

use crate::history::{positions_of, start_of, start_text};
use crate::steps::step_of;
use crate::words::{name_of, number_of, text};
use std::alloc::Global;
use wl_elem::LinkSet;
use wl_history::{Journal, Steps};
use wl_scene::{Released, Scenario, SceneFault, Totals, journal_text, read_scenario, report_line};

/// The answer of a call. None where there is none of this name, or a word can't be read.
pub fn answer(alloc: Global, name: &str, words: &[&str]) -> Option<String> {
    match name {
        "journal" => journal(alloc, words),
        "report" => report(alloc, words),
        "scenario" => scenario(alloc, words),
        _ => None,
    }
}

/// The steps of these words, the earliest first.
fn steps_of(alloc: Global, words: &[&str]) -> Option<Steps> {
    let mut steps = Steps::new(alloc);
    for word in words {
        steps.push(step_of(alloc, word)?).ok()?;
    }
    Some(steps)
}

/// Lines, with `|` for each line end.
fn joined(alloc: Global, octets: Vec<u8>) -> Option<String> {
    let lines = String::from_utf8(octets).ok()?;
    lines.as_str().replace(alloc, '\n', "|").ok()
}

/// `journal STEP..`: the lines of a journal of these steps, with `|` for each line end. A step is the
/// thread, the command and the answer, with `/` between any two.
fn journal(alloc: Global, words: &[&str]) -> Option<String> {
    let steps = steps_of(alloc, words)?;
    let start = start_of(alloc, &[])?;
    let journal = Journal { start, steps };
    joined(alloc, journal_text(alloc, &journal).ok()?.into_vec())
}

/// What an end reports over link 0: `COUNT:POS..` where so many frames were sent and numbers booked, and
/// so many bodies of TID 0 are queued, and these positions were released.
fn totals_of(alloc: Global, word: &str) -> Option<Totals> {
    let (count, released) = name_of(word);
    let count = number_of::<u32>(count)?;
    let one = LinkSet::from_bits(1)?;
    let mut lanes = Released::new(alloc);
    lanes.push(positions_of(alloc, released)?).ok()?;
    Some(Totals {
        aired: count,
        booked: count,
        emlsr: LinkSet::from_bits(0)?,
        key: 0,
        links: one,
        dl: [one; 8],
        ul: [one; 8],
        newest: 0,
        queued: [count, 0, 0, 0, 0, 0, 0, 0, 0],
        released: lanes,
    })
}

/// `report STEPS AP STA`: the line of a report after so many steps, with `|` for the line end.
fn report(alloc: Global, words: &[&str]) -> Option<String> {
    let [steps, ap, sta] = words else {
        return None;
    };
    let steps = number_of::<u32>(steps)?;
    let ap = totals_of(alloc, ap)?;
    let sta = totals_of(alloc, sta)?;
    joined(alloc, report_line(alloc, &ap, &sta, steps).ok()?.into_vec())
}

/// What both ends of a scenario start with, and how many items its script has.
fn scenario_text(alloc: Global, scenario: &Scenario) -> Option<String> {
    let start = start_text(alloc, &scenario.start)?;
    let count = scenario.before.as_slice().len();
    format!(in alloc; "{start} items {count}").ok()
}

/// `scenario TEXT`: what both ends of the scenario start with and how many items its script has, or where
/// the text is refused.
fn scenario(alloc: Global, words: &[&str]) -> Option<String> {
    let [text] = words else {
        return None;
    };
    match read_scenario(alloc, text.as_bytes()) {
        Ok(scenario) => scenario_text(alloc, &scenario),
        Err(SceneFault::Refused { place }) => format!(in alloc; "refused place={place}").ok(),
        Err(SceneFault::Memory) => None,
    }
}
