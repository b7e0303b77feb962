// Plays a row of events in the station of a plan, or replays the journal of one: prints each event that was done, or `can't`.
#![tactic(auto)]

use crate::again::replay_text;
use crate::options::{Options, USAGE, options_of};
use crate::show::Show;
use anyhow::anyhow;
use console::{Source, ended, or_said, print_outcome, write_file};
use journal::Journal;
use model::run::Outcome as Run;
use model::station::Station;
use plan::view::Plan;
use safety::run::run;
use script::{Script, read_events};
use soundness::Outcome;
use std::process::ExitCode;
use std::{env, io};

mod again;
mod options;
mod show;

// Plays events one after the other, and prints after each what is asked for; false where a promise does not hold. Here and below false means that it is said why, and the program ends with status 1.
fn play_watched<'a>(
    show: &mut Show<'_>,
    plan: Plan<'a>,
    script: &Script,
) -> anyhow::Result<(Run<'a>, bool)> {
    let mut station = Station::new(show.rt.alloc(), plan, script.lies)?;
    let mut answers = Vec::new(show.rt.alloc());
    for event in script.events.iter().take(show.options.budget) {
        let done = station.step(*event)?;
        answers.push(done)?;
        show.print_answer(*event, done)?;
        if !show.print_after(&station)? {
            return Ok((Run { station, answers }, false));
        }
    }
    Ok((Run { station, answers }, true))
}

// Plays all events in one run, and prints the answers.
fn play_all<'a>(
    show: &mut Show<'_>,
    plan: Plan<'a>,
    script: &Script,
) -> anyhow::Result<(Run<'a>, bool)> {
    let events = script.events.as_slice();
    let budget = show.options.budget;
    let outcome = run(show.rt.alloc(), plan, script.lies, events, budget)?;
    for (event, done) in events.iter().zip(outcome.answers.iter()) {
        show.print_answer(*event, *done)?;
    }
    Ok((outcome, true))
}

// Writes the journal of a run; false where it can't be written. Its text is made first, so that the file is whole or not begun.
fn save_journal(
    rt: &HostRuntime,
    name: &str,
    script: &Script,
    answers: &[bool],
) -> anyhow::Result<bool> {
    let events = script.events.as_slice();
    let journal = Journal::of_run(rt.alloc(), script.lies, events, answers)?;
    let text = ledger::write(rt.alloc(), &journal)?;
    Ok(write_file(rt, name, text.as_str())?)
}

// Plays a script in the station of a plan; false where a promise does not hold, or a file can't be written.
fn play(show: &mut Show<'_>, plan: Plan<'_>, script: &Script) -> anyhow::Result<bool> {
    let (outcome, good) = if show.options.watches() {
        play_watched(show, plan, script)?
    } else {
        play_all(show, plan, script)?
    };
    show.flush()?;
    let saved = match show.options.journal {
        Some(name) => save_journal(show.rt, name, script, outcome.answers.as_slice())?,
        None => true,
    };
    let finished = show.finish(&outcome.station, script.events.len())?;
    Ok(good && saved && finished)
}

// Reads the events and plays them; false where they can't be read, or not played to the end.
fn play_events(show: &mut Show<'_>, plan: Plan<'_>, source: &Source<'_>) -> anyhow::Result<bool> {
    let read = read_events(show.rt.alloc(), source.text.as_str());
    match or_said(&show.rt.stderr(), source.name, read)? {
        Some(script) => play(show, plan, &script),
        None => Ok(false),
    }
}

// The numbers of a plan, whose text is let go once they are read; nothing where it can't be read, and that is said.
fn numbers_of(rt: &HostRuntime, plan: Option<&str>) -> io::Result<Option<Vec<u16>>> {
    match Source::open(rt, plan)? {
        Some(office) => office.numbers(rt),
        None => Ok(None),
    }
}

// Plays or replays the file with the events or the journal, or the standard input, in the station of a plan.
fn play_files(rt: &HostRuntime, options: Options<'_>) -> anyhow::Result<bool> {
    if options.plan.is_none() {
        return Err(anyhow!(USAGE));
    }
    let Some(numbers) = numbers_of(rt, options.plan)? else {
        return Ok(false);
    };
    let numbers = numbers.as_slice();
    let Some(source) = Source::open(rt, options.replay.or(options.events))? else {
        return Ok(false);
    };
    let outcome = Outcome::of(numbers);
    if !outcome.is_sound() {
        print_outcome(&rt.stderr(), options.plan, outcome)?;
    }
    let Ok(plan) = Plan::try_from(numbers) else {
        return Ok(false);
    };
    let mut show = Show::new(rt, options)?;
    if options.replay.is_some() {
        replay_text(&mut show, plan, &source)
    } else {
        play_events(&mut show, plan, &source)
    }
}

fn start(rt: &HostRuntime) -> anyhow::Result<bool> {
    let words: Vec<String> = env::args(rt)?.skip(1).collect(rt.alloc())?;
    play_files(rt, options_of(words.as_slice())?)
}

fn main(rt: HostRuntime) -> anyhow::Result<ExitCode> {
    ended(&rt, start(&rt))
}
