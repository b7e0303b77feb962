// The journal of the loop's row: written, read and replayed, with the same last picture; and journals that can't be read or were not so, each with what is said of it.
use crate::verdicts::numbers_of;
use anyhow::anyhow;
use board::text;
use journal::Journal;
use ledger::Untrue;
use model::station::Station;
use picture::Picture;
use plan::view::Plan;
use replay::{Wrong, replay};
use safety::run::run;
use script::read_events;
use std::alloc::{AllocError, Global};
use std::fs;

// All points lie left.
const LEFT: &str = "1 1 1 1 1 1 1 1 1 1 1 1 1 1 1 1 1 1 1 1 1 1 1 1 1 1 1 1 1 1 1 1";

fn picture_of(heap: Global, station: &Station<'_>) -> Result<String, AllocError> {
    let picture = Picture::new(
        station.plan(),
        station.interlocking(),
        &station.occupancy(),
        &station.lies(),
    );
    text(heap, &picture, false)
}

// Replays a journal's text: the last picture, or what is said of it.
fn replayed(rt: &HostRuntime, plan: Plan<'_>, text: &str) -> anyhow::Result<String> {
    let heap = rt.alloc();
    let journal = match ledger::read(heap, text) {
        Ok(journal) => journal,
        Err(fault) => return Ok(format!(in heap; "{fault}")?),
    };
    match replay(heap, plan, &journal, usize::MAX) {
        Ok(station) => Ok(picture_of(heap, &station)?),
        Err(wrong) => said(heap, &journal, wrong),
    }
}

fn said(heap: Global, journal: &Journal, wrong: Wrong) -> anyhow::Result<String> {
    if let Wrong::Entry(place) = wrong {
        if let Some(entry) = journal.entries.get(place) {
            let untrue = Untrue::at(place, *entry);
            return Ok(format!(in heap; "{untrue}")?);
        }
    }
    Err(anyhow!("no memory is left"))
}

// Plays the loop's row, and replays its journal.
fn play(rt: &HostRuntime, plan: Plan<'_>, events: &str) -> anyhow::Result<()> {
    let heap = rt.alloc();
    let script = match read_events(heap, events) {
        Ok(script) => script,
        Err(fault) => return Ok(println!(rt; "{fault}")?),
    };
    let row = script.events.as_slice();
    let outcome = run(heap, plan, script.lies, row, usize::MAX)?;
    let journal = Journal::of_run(heap, script.lies, row, outcome.answers.as_slice())?;
    let written = ledger::write(heap, &journal)?;
    let last = picture_of(heap, &outcome.station)?;
    let again = replayed(rt, plan, written.as_str())?;
    let same = last.as_str() == again.as_str();
    print!(rt; "{written}{again}")?;
    println!(rt; "the same picture: {same}")?;
    Ok(())
}

// Each line of a table, after a first line or in its place, with what is said of it.
fn show_table(rt: &HostRuntime, plan: Plan<'_>, table: &str, first: bool) -> anyhow::Result<()> {
    for line in table.lines() {
        let written = if first {
            format!(in rt.alloc(); "{line}\n")?
        } else {
            format!(in rt.alloc(); "{LEFT}\n{line}\n")?
        };
        let said = replayed(rt, plan, written.as_str())?;
        println!(rt; "{line}: {said}")?;
    }
    Ok(())
}

pub fn show(rt: &HostRuntime) -> anyhow::Result<()> {
    let events = fs::read_to_string(rt, "loop.events")?;
    let firsts = fs::read_to_string(rt, "firsts.txt")?;
    let entries = fs::read_to_string(rt, "entries.txt")?;
    let Some(numbers) = numbers_of(rt, "loop")? else {
        return Ok(());
    };
    let Ok(plan) = Plan::try_from(numbers.as_slice()) else {
        return Err(anyhow!("the loop is refused"));
    };
    play(rt, plan, events.as_str())?;
    show_table(rt, plan, firsts.as_str(), true)?;
    show_table(rt, plan, entries.as_str(), false)
}
