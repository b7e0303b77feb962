// Judges plans that are written as texts: prints a line for each, and ends with status 0 only if all are sound.
#![tactic(auto)]

use anyhow::anyhow;
use console::{Source, ended, is_sound, print_reason, print_verdict, write_file};
use interlocking::Interlocking;
use picture::Picture;
use plan::view::Plan;
use std::alloc::Global;
use std::env;
use std::process::ExitCode;

const USAGE: &str = "usage: judge [--explain] [--numbers] [--svg FILE] [FILE ..]";

const ONE_DRAWING: &str = "judge: --svg draws one plan";

// What the words after the program's name ask for.
#[derive(Drop)]
struct Options<'a> {
    // Below the line stands why.
    explain: bool,
    // The plan's numbers are printed, and nothing else.
    numbers: bool,
    // The station is drawn into this file.
    svg: Option<&'a str>,
    files: Vec<&'a str>,
}

// Prints the numbers of a plan, one after the other.
fn print_numbers(rt: &HostRuntime, numbers: &[u16]) -> anyhow::Result<()> {
    if let [first, rest @ ..] = numbers {
        print!(rt; "{first}")?;
        for n in rest {
            print!(rt; " {n}")?;
        }
    }
    println!(rt; "")?;
    Ok(())
}

// Draws the station of a plan, with nothing locked and its points left; numbers that are no plan are not drawn. False where the file can't be written; here and below false means that it is said why, and the program ends with status 1.
fn draw(rt: &HostRuntime, numbers: &[u16], file: &str) -> anyhow::Result<bool> {
    let Ok(plan) = Plan::try_from(numbers) else {
        return Ok(true);
    };
    let picture = Picture::new(plan, Interlocking::at_rest(), &[false; 64], &[true; 32]);
    let drawn = drawing::svg(rt.alloc(), plan, &picture)?;
    Ok(write_file(rt, file, drawn.as_str())?)
}

// Judges the plan of a file, or of the standard input; true if it is a sound plan, and drawn where that is asked for.
fn judge_file(rt: &HostRuntime, options: &Options<'_>, file: Option<&str>) -> anyhow::Result<bool> {
    let Some(source) = Source::open(rt, file)? else {
        return Ok(false);
    };
    let Some(numbers) = source.numbers(rt)? else {
        return Ok(false);
    };
    let numbers = numbers.as_slice();
    if options.numbers {
        print_numbers(rt, numbers)?;
    } else {
        let named = options.files.len() > 1;
        print_verdict(rt, if named { file } else { None }, numbers)?;
        if options.explain {
            print_reason(rt, numbers)?;
        }
    }
    let drawn = match options.svg {
        Some(file) => draw(rt, numbers, file)?,
        None => true,
    };
    Ok(drawn && is_sound(numbers))
}

// An option in place of a file's name means that the name was left out.
fn options_of<'a>(heap: Global, words: &'a [String]) -> anyhow::Result<Options<'a>> {
    let mut options = Options {
        explain: false,
        numbers: false,
        svg: None,
        files: Vec::new(heap),
    };
    let mut left = words;
    while let [word, rest @ ..] = left {
        left = rest;
        match (word.as_str(), rest) {
            ("--explain", _) => options.explain = true,
            ("--numbers", _) => options.numbers = true,
            ("--svg", [file, rest @ ..]) if !file.starts_with("-") => {
                options.svg = Some(file.as_str());
                left = rest;
            }
            (file, _) if !file.starts_with("-") => options.files.push(file)?,
            _ => return Err(anyhow!(USAGE)),
        }
    }
    if options.files.len() > 1 && options.svg.is_some() {
        return Err(anyhow!(ONE_DRAWING));
    }
    Ok(options)
}

fn judge_all(rt: &HostRuntime) -> anyhow::Result<bool> {
    let words: Vec<String> = env::args(rt)?.skip(1).collect(rt.alloc())?;
    let options = options_of(rt.alloc(), words.as_slice())?;
    if options.files.is_empty() {
        return judge_file(rt, &options, None);
    }
    let mut sound = true;
    for file in options.files.iter() {
        sound &= judge_file(rt, &options, Some(*file))?;
    }
    Ok(sound)
}

fn main(rt: HostRuntime) -> anyhow::Result<ExitCode> {
    ended(&rt, judge_all(&rt))
}
