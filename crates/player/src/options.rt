// What the words after the program's name ask for.
use anyhow::anyhow;

// How many events are played if nothing else is said.
const BUDGET: usize = 1_000_000;

pub const USAGE: &str =
    "usage: player PLAN [EVENTS] [--journal FILE | --replay FILE] [--picture] [--check] [--budget N] [--svg FILE]";

const BUDGET_IS_A_NUMBER: &str = "player: --budget takes a number";

#[derive(Clone, Copy)]
pub struct Options<'a> {
    pub plan: Option<&'a str>,
    pub events: Option<&'a str>,
    // Where the journal of the run is written.
    pub journal: Option<&'a str>,
    // The journal that is replayed, in place of events.
    pub replay: Option<&'a str>,
    pub svg: Option<&'a str>,
    pub budget: usize,
    // The picture follows each event.
    pub picture: bool,
    // The promises are looked at after each event.
    pub check: bool,
}

impl Options<'_> {
    // Is something looked at after each event?
    pub fn watches(self) -> bool {
        self.picture | self.check
    }
}

fn budget_of(word: &str) -> anyhow::Result<usize> {
    match word.parse::<usize>() {
        Ok(budget) => Ok(budget),
        Err(_) => Err(anyhow!(BUDGET_IS_A_NUMBER)),
    }
}

// An option in place of a file's name means that the name was left out.
fn taken(words: &[String]) -> anyhow::Result<Options<'_>> {
    let mut options = Options {
        plan: None,
        events: None,
        journal: None,
        replay: None,
        svg: None,
        budget: BUDGET,
        picture: false,
        check: false,
    };
    let mut left = words;
    while let [word, rest @ ..] = left {
        left = rest;
        match (word.as_str(), rest) {
            ("--picture", _) => options.picture = true,
            ("--check", _) => options.check = true,
            ("--budget", [number, rest @ ..]) => {
                options.budget = budget_of(number.as_str())?;
                left = rest;
            }
            ("--svg", [file, rest @ ..]) if !file.starts_with("-") => {
                options.svg = Some(file.as_str());
                left = rest;
            }
            ("--journal", [file, rest @ ..]) if !file.starts_with("-") => {
                options.journal = Some(file.as_str());
                left = rest;
            }
            ("--replay", [file, rest @ ..]) if !file.starts_with("-") => {
                options.replay = Some(file.as_str());
                left = rest;
            }
            (name, _) if name.starts_with("-") => return Err(anyhow!(USAGE)),
            (name, _) if options.plan.is_none() => options.plan = Some(name),
            (name, _) if options.events.is_none() => options.events = Some(name),
            _ => return Err(anyhow!(USAGE)),
        }
    }
    Ok(options)
}

// A journal that is replayed has its events, and is written already.
pub fn options_of(words: &[String]) -> anyhow::Result<Options<'_>> {
    let options = taken(words)?;
    if options.replay.is_some() && (options.events.is_some() || options.journal.is_some()) {
        return Err(anyhow!(USAGE));
    }
    Ok(options)
}
