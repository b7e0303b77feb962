// Plans that each break one rule, or that are refused: for each the verdict, and why.
use std::{env, fs};
use trial::print_verdict;

// The numbers of a plan's file; where it can't be read, that is printed.
pub fn numbers_of(rt: &HostRuntime, name: &str) -> anyhow::Result<Option<Vec<u16>>> {
    let heap = rt.alloc();
    let text = fs::read_to_string(rt, format!(in heap; "{name}.plan")?.as_str())?;
    Ok(trial::numbers_of(rt, name, text.as_str())?)
}

// The plans that the program's words name.
pub fn show(rt: &HostRuntime) -> anyhow::Result<()> {
    for name in env::args(rt)?.skip(1) {
        if let Some(numbers) = numbers_of(rt, name.as_str())? {
            print_verdict(rt, name.as_str(), numbers.as_slice())?;
        }
    }
    Ok(())
}
