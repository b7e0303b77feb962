// What the test programs share: events and plans by chance, and what they say of plans, rows and stations.
#![tactic(auto)]

ghost use Rattle.std.specs.Prelude.{◌≡◌, ◌+◌, ◌*◌, ◌%◌, ◌^◌};

use console::{Answered, or_said, print_reason};
use interlocking::{Interlocking, Request};
use model::Event;
use model::station::Station;
use plan::view::Plan;
use script::{Script, read_events};
use std::alloc::{AllocError, Global};
use std::io;
use text::read::read_plan;
use watch::first_broken;

pub mod texts;

// A number that follows another, as if by chance.
pub fn next(seed: u32) -> u32
    ensures { result ≡ (seed * 1664525 + 1013904223) % 2 ^ 32 }
{
    seed.wrapping_mul(1664525).wrapping_add(1013904223)
}

// An event by chance, with four trains, eight routes and six sections; signals are cleared and points turn more often.
fn event_of(seed: u32) -> Event {
    let n = ((seed >> 8) % 8) as usize;
    let train = n % 4;
    let section = n % 6;
    match (seed >> 16) % 14 {
        0 | 1 => Event::Asked(Request::Ask(n)),
        2 | 3 => Event::Asked(Request::Clear(n)),
        4 => Event::Asked(Request::Back(n)),
        5 => Event::Asked(Request::Free(section)),
        6 => Event::Asked(Request::Tick),
        7 => Event::Turns(n % 2),
        8 => Event::Comes(train, section < 3, section),
        9 => Event::Reverses(train),
        10 => Event::Leaves(train),
        11 => Event::Draws(train),
        _ => Event::Goes(train),
    }
}

// So many events by chance: how many were done, and after how many something was broken.
pub fn by_chance(heap: Global, plan: Plan<'_>, count: u32) -> Result<(u32, u32), AllocError> {
    let mut station = Station::new(heap, plan, [true; 32])?;
    let mut seed = 7;
    let mut done = 0u32;
    let mut bad = 0u32;
    for _ in 0..count {
        seed = next(seed);
        done = done.saturating_add(u32::from(station.step(event_of(seed))?));
        bad = bad.saturating_add(u32::from(first_broken(&station).is_some()));
    }
    Ok((done, bad))
}

// The numbers of a plan's text; nothing where it can't be read, and that is printed.
pub fn numbers_of(rt: &HostRuntime, name: &str, text: &str) -> io::Result<Option<Vec<u16>>> {
    or_said(rt, name, read_plan(rt.alloc(), text))
}

// Prints the verdict on a plan, and why it is not sound.
pub fn print_verdict(rt: &HostRuntime, name: &str, numbers: &[u16]) -> io::Result<()> {
    console::print_verdict(rt, Some(name), numbers)?;
    print_reason(rt, numbers)
}

// Prints an event that was done, or `can't`.
pub fn print_event(rt: &HostRuntime, event: Event, done: bool) -> io::Result<()> {
    let said = Answered(event, done);
    println!(rt; "{said}")
}

// Prints the first promise that does not hold.
pub fn print_broken(rt: &HostRuntime, station: &Station<'_>) -> io::Result<()> {
    if let Some(broken) = first_broken(station) {
        println!(rt; "  broken: {broken}")?;
    }
    Ok(())
}

// The routes that are not idle, each with its stage.
pub fn stages(
    heap: Global,
    interlocking: &Interlocking,
    routes: u16,
) -> Result<String, AllocError> {
    let mut said = String::new(heap);
    for r in 0..routes {
        let stage = interlocking.stage_of(usize::from(r));
        if !stage.is_idle() {
            let word = stage.name();
            let part = format!(in heap; " {r} {word}")?;
            said.push_str(part.as_str())?;
        }
    }
    Ok(said)
}

// The locks of the sections, from 0 on: a route's number, or a dot.
pub fn locks(
    heap: Global,
    interlocking: &Interlocking,
    sections: u16,
) -> Result<String, AllocError> {
    let mut said = String::new(heap);
    for x in 0..sections {
        match interlocking.lock_of(usize::from(x)).checked_sub(1) {
            Some(r) => {
                let part = format!(in heap; "{r}")?;
                said.push_str(part.as_str())?;
            }
            None => said.push_str(".")?,
        }
    }
    Ok(said)
}

// What is said of events in the station of a plan, both given as texts; or which of them can't be read, or is refused.
pub fn in_station<F: FnOnce(Plan<'_>, &Script) -> Result<String, AllocError>>(
    heap: Global,
    plan: &str,
    events: &str,
    said: F,
) -> Result<String, AllocError>
    requires { F.IsAlwaysCallable said }
{
    let Ok(numbers) = read_plan(heap, plan) else {
        return String::from_str(heap, "the plan can't be read");
    };
    let Ok(plan) = Plan::try_from(numbers.as_slice()) else {
        return String::from_str(heap, "the plan is refused");
    };
    match read_events(heap, events) {
        Ok(script) => said(plan, &script),
        Err(_) => String::from_str(heap, "the events can't be read"),
    }
}
