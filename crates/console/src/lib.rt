// What the programs and the tests read, and what they print of it.
#![tactic(auto)]

ghost use Rattle.std.specs.Prelude.{◌≡◌, false, IfOk, Result};
ghost use Rattle.std.specs.Option.{unwrap_or};
ghost use Rattle.std.specs.Process.{exit_status};
ghost use Rattle.std.specs.Result.{result_ok};
ghost use Rattle.plan.specs.Plan.{pick};
ghost use Rattle.plan.specs.declared.Refusal.{Refusal as NoPlan};
ghost use Rattle.soundness.specs.Rules.{Judges, says_sound};
ghost use Rattle.soundness.specs.declared.Verdict.{Verdict as Judgement};

use model::Event;
use soundness::Outcome;
use std::fmt::Display;
use std::io::Print;
use std::process::ExitCode;
use std::{fmt, fs, io};
use text::read::read_plan;

// What was read or written; where that failed, why is said here, since an `anyhow::Error` would cut a long name off.
pub fn or_said<T, E: Display + Drop>(
    out: &impl Print,
    name: &str,
    done: Result<T, E>,
) -> io::Result<Option<T>>
    ensures { IfOk result (λ value. value ≡ result_ok done) }
{
    match done {
        Ok(value) => Ok(Some(value)),
        Err(error) => {
            println!(out; "{name}: {error}")?;
            Ok(None)
        }
    }
}

// A text, and the name that stands for it.
#[derive(Drop)]
pub struct Source<'a> {
    pub name: &'a str,
    pub text: String,
}

impl<'a> Source<'a> {
    // The file of this name, or the standard input where there is no name; nothing where it can't be read, and that is said.
    pub fn open(rt: &HostRuntime, file: Option<&'a str>) -> io::Result<Option<Source<'a>>> {
        let (name, read) = match file {
            Some(name) => (name, fs::read_to_string(rt, name)),
            None => ("standard input", io::read_to_string(rt.alloc(), rt.stdin())),
        };
        match or_said(&rt.stderr(), name, read)? {
            Some(text) => Ok(Some(Source { name, text })),
            None => Ok(None),
        }
    }

    // The numbers of a plan's text; nothing where it can't be read, and that is said.
    pub fn numbers(&self, rt: &HostRuntime) -> io::Result<Option<Vec<u16>>> {
        or_said(
            &rt.stderr(),
            self.name,
            read_plan(rt.alloc(), self.text.as_str()),
        )
    }
}

// Writes a file; false where it can't be written, and that is said: the program goes on and `ended` then gives status 1.
pub fn write_file(rt: &HostRuntime, name: &str, text: &str) -> io::Result<bool> {
    Ok(or_said(&rt.stderr(), name, fs::write(rt, name, text))?.is_some())
}

// Are the numbers a sound plan?
pub fn is_sound(numbers: &[u16]) -> bool
    ensures { (r : Result Judgement NoPlan) × Judges numbers.now r × (result ≡ says_sound r) }
{
    Outcome::of(numbers).is_sound()
}

// Prints what the judge says of a plan, after its name where one is given.
pub fn print_outcome(out: &impl Print, name: Option<&str>, outcome: Outcome) -> io::Result<()> {
    match name {
        Some(name) => println!(out; "{name}: {outcome}"),
        None => println!(out; "{outcome}"),
    }
}

// Judges a plan, and prints the verdict.
pub fn print_verdict(out: &impl Print, name: Option<&str>, numbers: &[u16]) -> io::Result<()> {
    print_outcome(out, name, Outcome::of(numbers))
}

// Prints why a plan is not sound.
pub fn print_reason(out: &impl Print, numbers: &[u16]) -> io::Result<()> {
    if let Some(reason) = explain::why::explain(numbers) {
        println!(out; "  {reason}")?;
    }
    Ok(())
}

// An event, and whether it was done, to be printed. A `journal::Entry` holds the same, but the judge, which links this crate, needs no journal.
#[derive(Clone, Copy)]
pub struct Answered(pub Event, pub bool);

impl Display for Answered {
    fn fmt<W: fmt::Write>(&self, f: &mut fmt::Formatter<W>) -> fmt::Result {
        if self.1 {
            self.0.fmt(f)
        } else {
            write!(f, "can't")
        }
    }
}

// How a program ends: well if all was done, and not if something was said of it, or is said here.
pub fn ended(rt: &HostRuntime, done: anyhow::Result<bool>) -> anyhow::Result<ExitCode>
    ensures { IfOk result (λ code. exit_status code ≡ pick (unwrap_or (result_ok done) false) 0 1) }
{
    match done {
        Ok(true) => Ok(ExitCode::SUCCESS),
        Ok(false) => Ok(ExitCode::FAILURE),
        Err(error) => {
            eprintln!(rt; "{error}")?;
            Ok(ExitCode::FAILURE)
        }
    }
}
