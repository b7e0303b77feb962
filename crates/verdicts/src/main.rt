// Plans that each break one rule, or that are refused: for each file the verdict, and why.
#![tactic(auto)]

use std::{env, fs};
use trial::{numbers_of, print_verdict};

// `scenarios` goes through the same plans by names without an ending; what both do with a text is in `trial`, and the loop alone is no shorter when shared.
fn main(rt: HostRuntime) -> anyhow::Result<()> {
    for name in env::args(&rt)?.skip(1) {
        let name = name.as_str();
        let text = fs::read_to_string(&rt, name)?;
        if let Some(numbers) = numbers_of(&rt, name, text.as_str())? {
            print_verdict(&rt, name, numbers.as_slice())?;
        }
    }
    Ok(())
}
