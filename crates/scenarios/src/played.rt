// Rows of events played in their stations. For each: the plan's verdict, each event that was done, or `can't`, with the first promise that does not hold after it, and in the end the routes that are not idle and
// for each section the route that holds it, or a dot.
use crate::verdicts::numbers_of;
use anyhow::anyhow;
use console::or_said;
use model::station::Station;
use plan::view::Plan;
use safety::run::run;
use script::{Script, read_events};
use std::fs;
use trial::{locks, print_broken, print_event, print_verdict, stages};

fn print_left(rt: &HostRuntime, plan: Plan<'_>, station: &Station<'_>) -> anyhow::Result<()> {
    let interlocking = station.interlocking();
    let held = locks(rt.alloc(), &interlocking, plan.sections())?;
    let stages = stages(rt.alloc(), &interlocking, plan.routes())?;
    println!(rt; "  {held}{stages}")?;
    Ok(())
}

// Plays a row event by event; what a whole run of it answers must be the same.
fn play(rt: &HostRuntime, plan: Plan<'_>, script: &Script) -> anyhow::Result<()> {
    let events = script.events.as_slice();
    let outcome = run(rt.alloc(), plan, script.lies, events, events.len())?;
    let mut station = Station::new(rt.alloc(), plan, script.lies)?;
    for (event, answer) in events.iter().zip(outcome.answers.iter()) {
        let done = station.step(*event)?;
        print_event(rt, *event, done)?;
        if done != *answer {
            println!(rt; "  the run answers otherwise")?;
        }
        print_broken(rt, &station)?;
    }
    print_left(rt, plan, &station)
}

fn play_text(rt: &HostRuntime, name: &str, numbers: &[u16], events: &str) -> anyhow::Result<()> {
    print_verdict(rt, name, numbers)?;
    let Ok(plan) = Plan::try_from(numbers) else {
        return Ok(());
    };
    if let Some(script) = or_said(rt, name, read_events(rt.alloc(), events))? {
        play(rt, plan, &script)?;
    }
    Ok(())
}

// One line of the table: what it is about, the plan, and the events, or the file that they stand in.
fn show_row(rt: &HostRuntime, line: &str) -> anyhow::Result<()> {
    let heap = rt.alloc();
    let Some((about, rest)) = line.split_once(':') else {
        return Err(anyhow!("a row has no plan"));
    };
    let Some((plan, said)) = rest.split_once(':') else {
        return Err(anyhow!("a row has no events"));
    };
    println!(rt; "{about}")?;
    let Some(numbers) = numbers_of(rt, plan.trim())? else {
        return Ok(());
    };
    let events = if said.trim().ends_with(".events") {
        fs::read_to_string(rt, said.trim())?
    } else {
        said.replace(heap, ";", "\n")?
    };
    play_text(rt, plan.trim(), numbers.as_slice(), events.as_str())
}

pub fn show(rt: &HostRuntime) -> anyhow::Result<()> {
    let table = fs::read_to_string(rt, "rows.txt")?;
    for line in table.as_str().lines() {
        show_row(rt, line)?;
    }
    Ok(())
}
