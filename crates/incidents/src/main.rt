// Rows of events played in their stations, one after the other: for each the verdict on its plan, then each event that was done, or `can't`, with the first promise that does not hold after it.
#![tactic(auto)]

use console::or_said;
use model::station::Station;
use plan::view::Plan;
use script::{Script, read_events};
use std::{env, fs};
use trial::{numbers_of, print_broken, print_event, print_verdict};

// `scenarios` plays a row beside a whole run's answers and prints what is left; what both print is in `trial`.
fn play(rt: &HostRuntime, plan: Plan<'_>, script: &Script) -> anyhow::Result<()> {
    let mut station = Station::new(rt.alloc(), plan, script.lies)?;
    for event in script.events.iter() {
        let done = station.step(*event)?;
        print_event(rt, *event, done)?;
        print_broken(rt, &station)?;
    }
    Ok(())
}

fn show(rt: &HostRuntime, name: &str, plan: &str, events: &str) -> anyhow::Result<()> {
    let Some(numbers) = numbers_of(rt, name, plan)? else {
        return Ok(());
    };
    print_verdict(rt, name, numbers.as_slice())?;
    let Ok(plan) = Plan::try_from(numbers.as_slice()) else {
        return Ok(());
    };
    if let Some(script) = or_said(rt, name, read_events(rt.alloc(), events))? {
        play(rt, plan, &script)?;
    }
    Ok(())
}

fn main(rt: HostRuntime) -> anyhow::Result<()> {
    let heap = rt.alloc();
    for name in env::args(&rt)?.skip(1) {
        let plan = fs::read_to_string(&rt, format!(in heap; "{name}.plan")?.as_str())?;
        let events = fs::read_to_string(&rt, format!(in heap; "{name}.events")?.as_str())?;
        show(&rt, name.as_str(), plan.as_str(), events.as_str())?;
    }
    Ok(())
}
