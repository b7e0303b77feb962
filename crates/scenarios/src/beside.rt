// The proved library beside the plain player: asks the library what the plain player was asked, and compares each answer and each number of the memory with what the plain player wrote down. The cases of the file `cases` are always asked, and those of `more` where it is there.
use crate::reader::Reader;
use anyhow::anyhow;
use bridge::Code;
use model::Event;
use model::station::Station;
use plan::view::Plan;
use replay::memory_of;
use safety::run::run;
use std::alloc::{AllocError, Global};
use std::collections::BTreeSet;
use std::fs;

// The cases that are still to come, and what is lent to the library for them.
#[derive(Drop)]
struct Comparison<'a> {
    reader: Reader<'a>,
    plan: Vec<u16>,
    memory: Vec<u16>,
    seen: &'a [u8],
    turned: &'a [u8],
    // The kinds of cases that there were.
    kinds: BTreeSet<Kind>,
}

// What was asked, and how it was answered.
#[derive(Clone, Copy, PartialEq, Eq, PartialOrd, Ord)]
enum Kind {
    Sound,
    Unsound,
    NoPlan,
    Done,
    NotDone,
    Refused,
    Noted,
    NotingRefused,
    Row,
}

const ALL_KINDS: usize = 9;

#[derive(Clone, Copy)]
enum Asked {
    Judge,
    // By its two numbers, as C hands it over: what is refused for them is no `Request`.
    Request(u16, u16),
    Noting,
    Row,
}

// What was due, and what the library did.
#[derive(Clone, Copy)]
enum Difference {
    Answer(Code, Code),
    // A number of the memory, or of the world after a row.
    Number(usize, u16, u16),
    // An event that was due to be done, or not to be.
    Event(usize),
    // There are fewer or more answers or numbers than were due.
    Length,
}

// The kind of a case: what was asked, and the first number of the answer.
fn kind_of(asked: Asked, what: u64) -> Kind {
    match (asked, what) {
        (Asked::Judge, 0) => Kind::Sound,
        (Asked::Judge, 1) => Kind::Unsound,
        (Asked::Judge, _) => Kind::NoPlan,
        (Asked::Request(..), 0) => Kind::NotDone,
        (Asked::Request(..), 1) => Kind::Done,
        (Asked::Request(..), _) => Kind::Refused,
        (Asked::Noting, 1) => Kind::Noted,
        (Asked::Noting, _) => Kind::NotingRefused,
        (Asked::Row, _) => Kind::Row,
    }
}

fn first_change(due: &[u16], found: &[u16]) -> Option<Difference> {
    due.iter()
        .zip(found)
        .enumerate()
        .find(|(_, (due, found))| due != found)
        .map(|(place, (due, found))| Difference::Number(place, *due, *found))
}

// The world of a station in numbers.
fn world_numbers(heap: Global, station: &Station<'_>) -> Result<Vec<u16>, AllocError> {
    let mut numbers = memory_of(station).to_vec(heap)?;
    for left in station.lies() {
        numbers.push(u16::from(left))?;
    }
    for i in 0..16 {
        let sections = station.sections_of(i);
        // A train that is nowhere goes no way, and the plain player writes 0 for it.
        numbers.push(u16::from(station.goes_up(i) && !sections.is_empty()))?;
        numbers.push((sections.len() & 0xffff) as u16)?;
        numbers.extend_from_slice(sections)?;
    }
    Ok(numbers)
}

// A row played in a plan: the first answer, or the first number of the last world, that is not as due.
fn row_differs(
    heap: Global,
    plan: &[u16],
    events: &[Event],
    done: &[u8],
    world: &[u16],
) -> anyhow::Result<Option<Difference>> {
    let Ok(plan) = Plan::try_from(plan) else {
        return Err(anyhow!("a row in a plan that is refused"));
    };
    let outcome = run(heap, plan, [true; 32], events, events.len())?;
    let mut answers = done.iter().zip(outcome.answers.iter());
    if let Some(place) = answers.position(|(due, answer)| (*due == 1) != *answer) {
        return Ok(Some(Difference::Event(place)));
    }
    let numbers = world_numbers(heap, &outcome.station)?;
    if done.len() != outcome.answers.len() || world.len() != numbers.len() {
        return Ok(Some(Difference::Length));
    }
    Ok(first_change(world, numbers.as_slice()))
}

impl Comparison<'_> {
    // Plays a row.
    fn play(&mut self, heap: Global) -> anyhow::Result<Option<(Asked, Difference)>> {
        let events = self.reader.events(heap)?;
        let done = self.reader.marks()?;
        let world = self.reader.numbers(heap)?;
        self.kinds.insert(Kind::Row)?;
        let plan = self.plan.as_slice();
        let difference = row_differs(heap, plan, events.as_slice(), done, world.as_slice())?;
        Ok(difference.map(|difference| (Asked::Row, difference)))
    }

    // What the library answers; it may change the memory.
    fn answer(&mut self, asked: Asked) -> Code {
        let plan = self.plan.as_slice();
        let memory = self.memory.as_mut_slice();
        match asked {
            Asked::Judge => bridge::wonathippu_judge(plan),
            Asked::Request(kind, which) => {
                let (kind, which) = (u64::from(kind), u64::from(which));
                bridge::wonathippu_act(plan, memory, self.seen, self.turned, kind, which)
            }
            Asked::Noting | Asked::Row => bridge::wonathippu_note(plan, memory, self.seen),
        }
    }

    // Asks the library; judging leaves the memory as it was, and what else changes is in the file.
    fn ask(&mut self, asked: Asked) -> anyhow::Result<Option<(Asked, Difference)>> {
        let due = self.reader.answer()?;
        let mut left = self.memory.clone()?;
        if !matches!(asked, Asked::Judge) {
            self.reader.changes(&mut left)?;
        }
        self.kinds.insert(kind_of(asked, due.what))?;
        let code = self.answer(asked);
        if due != code {
            return Ok(Some((asked, Difference::Answer(due, code))));
        }
        let change = first_change(left.as_slice(), self.memory.as_slice());
        Ok(change.map(|difference| (asked, difference)))
    }

    // One case: a difference, if there is one.
    fn next(&mut self, heap: Global) -> anyhow::Result<Option<(Asked, Difference)>> {
        let asked = match self.reader.number()? {
            1 => {
                self.reader.list(&mut self.plan)?;
                Asked::Judge
            }
            2 => {
                self.reader.list(&mut self.memory)?;
                return Ok(None);
            }
            3 => {
                self.seen = self.reader.marks()?;
                return Ok(None);
            }
            4 => {
                self.turned = self.reader.marks()?;
                return Ok(None);
            }
            5 => Asked::Request(self.reader.number()?, self.reader.number()?),
            6 => Asked::Noting,
            7 => return self.play(heap),
            _ => return Err(anyhow!("a case of a kind that is not known")),
        };
        self.ask(asked)
    }
}

fn print_answers(rt: &HostRuntime, due: Code, code: Code) -> anyhow::Result<()> {
    let (what, number, place) = (due.what, due.number, due.place);
    print!(rt; "expected {what} {number} {place}, ")?;
    let (what, number, place) = (code.what, code.number, code.place);
    println!(rt; "answered {what} {number} {place}")?;
    Ok(())
}

fn print_difference(rt: &HostRuntime, asked: Asked, difference: Difference) -> anyhow::Result<()> {
    match asked {
        Asked::Judge => print!(rt; "the plan is judged: ")?,
        Asked::Request(kind, which) => print!(rt; "request {kind} for {which}: ")?,
        Asked::Noting => print!(rt; "noting: ")?,
        Asked::Row => print!(rt; "a row: ")?,
    }
    match difference {
        Difference::Answer(due, code) => print_answers(rt, due, code)?,
        Difference::Number(place, due, found) => println!(rt;
            "expected {due} at {place}, found {found}"
        )?,
        Difference::Event(place) => println!(rt; "event {place} is answered otherwise")?,
        Difference::Length => println!(rt; "it is longer or shorter")?,
    }
    Ok(())
}

// Goes through the cases of a file, and gives their kinds with those of before; nothing at the first difference, or where the file can't be read on.
fn compare(
    rt: &HostRuntime,
    name: &str,
    kinds: BTreeSet<Kind>,
) -> anyhow::Result<Option<BTreeSet<Kind>>> {
    let file = fs::read(rt, name)?;
    let mut comparison = Comparison {
        reader: Reader::new(file.as_slice()),
        plan: Vec::new(rt.alloc()),
        memory: Vec::new(rt.alloc()),
        seen: &[],
        turned: &[],
        kinds,
    };
    // Counted, since a difference is told with the number of its case; a `while` would need a counter beside it.
    for nth in 0..u64::MAX {
        if comparison.reader.at_end() {
            break;
        }
        match comparison.next(rt.alloc()) {
            Ok(None) => {}
            Ok(Some((asked, difference))) => {
                print!(rt; "{name}, case {nth}, ")?;
                print_difference(rt, asked, difference)?;
                println!(rt; "plan: {:?}", comparison.plan)?;
                return Ok(None);
            }
            Err(error) => {
                println!(rt; "{name}, case {nth}: {error}")?;
                return Ok(None);
            }
        }
    }
    Ok(Some(comparison.kinds))
}

pub fn show(rt: &HostRuntime) -> anyhow::Result<()> {
    let mut kinds = BTreeSet::new(rt.alloc());
    for name in ["cases", "more"] {
        if fs::exists(rt, name)? {
            match compare(rt, name, kinds)? {
                Some(more) => kinds = more,
                None => return Err(anyhow!("not the same")),
            }
        }
    }
    if kinds.len() != ALL_KINDS {
        return Err(anyhow!("some kind of case is missing"));
    }
    println!(rt;
        "plans judged sound, unsound and refused; requests done, not done and refused; noting done and refused; each number of the memory; rows of events with trains, each answer and the last world: no difference"
    )?;
    Ok(())
}
