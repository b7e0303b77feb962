// A journal replayed: all of it is checked before anything is printed.
use crate::show::Show;
use anyhow::anyhow;
use console::{Source, or_said};
use journal::Journal;
use ledger::Untrue;
use model::station::Station;
use plan::view::Plan;
use replay::step::Replay;
use replay::{Wrong, replay};

// Steps through the entries, and prints after each what is asked for; false where a promise does not hold.
fn replay_watched<'a>(
    show: &mut Show<'_>,
    plan: Plan<'a>,
    journal: &Journal,
) -> anyhow::Result<(Station<'a>, bool)> {
    let mut replay = Replay::new(show.rt.alloc(), plan, journal.lies)?;
    for _ in 0..show.options.budget.min(journal.entries.len()) {
        let Ok(Some(entry)) = replay.next(journal) else {
            return Err(anyhow!("no memory is left"));
        };
        show.print_answer(entry.event, entry.done)?;
        if !show.print_after(&replay.station)? {
            return Ok((replay.station, false));
        }
    }
    Ok((replay.station, true))
}

// What is said of an entry that could not have happened; `scenarios` has it as a text, and what both say is `Untrue`.
fn say_wrong(rt: &HostRuntime, name: &str, journal: &Journal, wrong: Wrong) -> anyhow::Result<()> {
    if let Wrong::Entry(place) = wrong {
        if let Some(entry) = journal.entries.get(place) {
            let untrue = Untrue::at(place, *entry);
            eprintln!(rt; "{name}: {untrue}")?;
            return Ok(());
        }
    }
    Err(anyhow!("no memory is left"))
}

// Reads a journal and replays it in the station of a plan; false where it can't be read, an answer is not the station's own, a promise does not hold, or the station can't be drawn.
pub fn replay_text(
    show: &mut Show<'_>,
    plan: Plan<'_>,
    source: &Source<'_>,
) -> anyhow::Result<bool> {
    let read = ledger::read(show.rt.alloc(), source.text.as_str());
    let Some(journal) = or_said(&show.rt.stderr(), source.name, read)? else {
        return Ok(false);
    };
    let last = match replay(show.rt.alloc(), plan, &journal, show.options.budget) {
        Ok(station) => station,
        Err(wrong) => {
            say_wrong(show.rt, source.name, &journal, wrong)?;
            return Ok(false);
        }
    };
    let (station, good) = if show.options.watches() {
        replay_watched(show, plan, &journal)?
    } else {
        for entry in journal.entries.iter().take(show.options.budget) {
            show.print_answer(entry.event, entry.done)?;
        }
        (last, true)
    };
    show.flush()?;
    let finished = show.finish(&station, journal.entries.len())?;
    Ok(good && finished)
}
