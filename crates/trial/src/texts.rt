// Texts from tables, read and answered, and plans written and read again.
use crate::next;
use plan::view::Plan;
use print::write_plan;
use script::read_events;
use soundness::judge::judge;
use std::alloc::{AllocError, Global};
use std::fs;
use text::read::read_plan;

// The verdict on numbers, as the judge says it.
fn verdict(heap: Global, numbers: &[u16]) -> Result<String, AllocError> {
    match judge(numbers) {
        Ok(verdict) => verdict.to_string(heap),
        Err(refusal) => refusal.to_string(heap),
    }
}

// The numbers of a plan that is written and read again; none where they are refused or can't be read.
fn again(heap: Global, numbers: &[u16]) -> Result<Vec<u16>, AllocError> {
    let Ok(plan) = Plan::try_from(numbers) else {
        return Ok(Vec::new(heap));
    };
    let text = write_plan(heap, plan)?;
    match read_plan(heap, text.as_str()) {
        Ok(back) => Ok(back),
        Err(_) => Ok(Vec::new(heap)),
    }
}

// What is answered to the text of a plan: what it can't be read for, or its numbers, its verdict, and whether it reads back.
fn plan_line(rt: &HostRuntime, text: &str) -> anyhow::Result<()> {
    match read_plan(rt.alloc(), text) {
        Ok(numbers) => {
            let said = verdict(rt.alloc(), numbers.as_slice())?;
            let back = again(rt.alloc(), numbers.as_slice())?;
            let same = back.as_slice() == numbers.as_slice();
            println!(rt; "{numbers:?} {said} {same}")?;
        }
        Err(fault) => println!(rt; "{fault}")?,
    }
    Ok(())
}

// What is answered to a row of events: what it can't be read for, or the events as they are printed.
fn events_line(rt: &HostRuntime, text: &str) -> anyhow::Result<()> {
    match read_events(rt.alloc(), text) {
        Ok(script) => {
            for event in script.events.as_slice() {
                print!(rt; "{event}; ")?;
            }
            println!(rt; "")?;
        }
        Err(fault) => println!(rt; "{fault}")?,
    }
    Ok(())
}

// Numbers of a plan with so many sections, points and routes, all below a bound, with paths and needs of at most seven.
fn chance(heap: Global, seed: u32, bound: u32) -> Result<Vec<u16>, AllocError> {
    let sections = (seed >> 8) % 5 + 1;
    let points = (seed >> 12) % 3;
    let routes = (seed >> 16) % 3;
    let mut numbers = Vec::new(heap);
    numbers.push(sections as u16)?;
    numbers.push(points as u16)?;
    numbers.push(2)?;
    numbers.push(routes as u16)?;
    let first = 11 * sections + points;
    let mut last = seed;
    for k in 0..first + 52 * routes {
        last = next(last);
        let most = if k >= first && matches!((k - first) % 52, 2 | 3) {
            8
        } else {
            bound
        };
        numbers.push((((last >> 9) % most.max(1)) & 0xff) as u16)?;
    }
    Ok(numbers)
}

// Does a plan by chance come back with the same verdict, and then stay the same?
fn comes_back(heap: Global, seed: u32) -> Result<bool, AllocError> {
    let numbers = chance(heap, seed, 2 + (seed >> 20) % 5)?;
    let back = again(heap, numbers.as_slice())?;
    let twice = again(heap, back.as_slice())?;
    let old = verdict(heap, numbers.as_slice())?;
    let new = verdict(heap, back.as_slice())?;
    Ok(
        back.as_slice() == twice.as_slice()
            && old.as_str() == new.as_str()
            && back.len() == numbers.len(),
    )
}

pub fn show(rt: &HostRuntime) -> anyhow::Result<()> {
    for name in ["bad.txt", "good.txt"] {
        let all = fs::read_to_string(rt, name)?;
        for line in all.as_str().lines() {
            let text = line.replace(rt.alloc(), "|", "\n")?;
            plan_line(rt, text.as_str())?;
        }
    }
    let all = fs::read_to_string(rt, "lines.txt")?;
    for line in all.as_str().lines() {
        let text = line.replace(rt.alloc(), "|", "\n")?;
        events_line(rt, text.as_str())?;
    }
    let mut seed = 7;
    let mut failed = 0u32;
    for _ in 0..500 {
        seed = next(seed);
        if !comes_back(rt.alloc(), seed)? {
            failed = failed.saturating_add(1);
        }
    }
    println!(rt; "500 plans, {failed} came back otherwise")?;
    Ok(())
}
