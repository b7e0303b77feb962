// Journals as texts: how the points lay on the first line, 1 for left, and then a line of five numbers for each entry.
#![tactic(auto)]

ghost use Rattle.std.specs.Prelude.{◌≡◌};
ghost use Rattle.ledger.specs.declared.Kind.TheVariants.{Memory};

use journal::read::Refusal;
use journal::{Entry, Journal};
use std::alloc::{AllocError, AllocFailed, Global};
use std::fmt;
use words::fault::Fault;

// How many numbers the first line has, and each that follows.
const POINTS: usize = 32;

const ENTRY: usize = 5;

// What the numbers of a line are.
#[derive(Clone, Copy, Debug, PartialEq, Eq)]
pub enum Row {
    Points,
    Entry,
}

#[derive(Clone, Copy, Debug, PartialEq, Eq)]
pub enum Kind<'a> {
    // There is no memory to read it.
    Memory,
    // A row of numbers is expected, and something else or nothing more stands there.
    Numbers(Row, Option<&'a str>),
    // More stands there than the numbers.
    TooMany(&'a str),
    // A point lay neither left nor right.
    Side(&'a str),
    // No event has this number in this place.
    Number(&'a str, usize),
}

// As in words: the clause names this enum's own `Memory`, so there is a `From` for each.
impl<T: Drop> From<AllocFailed<T>> for Kind<'_> {
    ghost from_gives = { λ _ k. k ≡ Memory };

    fn from(_e: AllocFailed<T>) -> Self {
        Kind::Memory
    }
}

// An entry on a line, whose answer is not the station's own.
#[derive(Clone, Copy)]
pub struct Untrue {
    pub line: usize,
    pub entry: Entry,
}

impl Untrue {
    // The entry at a place of a journal.
    pub fn at(place: usize, entry: Entry) -> Untrue {
        Untrue {
            line: place.saturating_add(2),
            entry,
        }
    }
}

impl Row {
    fn len(self) -> usize {
        match self {
            Row::Points => POINTS,
            Row::Entry => ENTRY,
        }
    }
}

impl fmt::Display for Row {
    fn fmt<W: fmt::Write>(&self, f: &mut fmt::Formatter<W>) -> fmt::Result {
        match self {
            Row::Points => write!(f, "32"),
            Row::Entry => write!(f, "five"),
        }
    }
}

impl fmt::Display for Kind<'_> {
    fn fmt<W: fmt::Write>(&self, f: &mut fmt::Formatter<W>) -> fmt::Result {
        match self {
            Kind::Memory => write!(f, "no memory is left"),
            Kind::Numbers(row, Some(found)) => write!(f, "expected {row} numbers, found '{found}'"),
            Kind::Numbers(row, None) => write!(
                f,
                "expected {row} numbers, found the end of the line"
            ),
            Kind::TooMany(found) => write!(f, "expected the end of the line, found '{found}'"),
            Kind::Side(found) => write!(f, "expected 0 or 1, found '{found}'"),
            Kind::Number(found, place) => write!(
                f,
                "expected the numbers of an event, found '{found}' in place {place}"
            ),
        }
    }
}

impl fmt::Display for Untrue {
    fn fmt<W: fmt::Write>(&self, f: &mut fmt::Formatter<W>) -> fmt::Result {
        let line = self.line;
        let event = self.entry.event;
        if self.entry.done {
            write!(
                f,
                "line {line}: expected can't, found that '{event}' was done"
            )
        } else {
            write!(
                f,
                "line {line}: expected that '{event}' was done, found can't"
            )
        }
    }
}

// The text of a journal.
pub fn write(heap: Global, journal: &Journal) -> Result<String, AllocError> {
    let numbers = journal.numbers(heap)?;
    let (lies, entries) = numbers.split_at(POINTS.min(numbers.len()));
    let mut text = String::new(heap);
    write_line(&mut text, lies)?;
    for entry in entries.chunks(ENTRY) {
        write_line(&mut text, entry)?;
    }
    Ok(text)
}

fn write_line(text: &mut String, numbers: &[u64]) -> Result<(), AllocError> {
    let mut gap = "";
    for n in numbers {
        write!(text, "{gap}{n}")?;
        gap = " ";
    }
    text.push_str("\n")
}

// A number in digits alone.
fn number_of(piece: &str) -> Option<u64> {
    if piece.starts_with('+') {
        return None;
    }
    piece.parse().ok()
}

// Takes the numbers of a line, which has to be such a row.
fn take_line<'a>(numbers: &mut Vec<u64>, line: &'a str, row: Row) -> Result<(), Kind<'a>> {
    let mut pieces = line.split_whitespace();
    for _ in 0..row.len() {
        let piece = pieces.next().ok_or(Kind::Numbers(row, None))?;
        let n = number_of(piece).ok_or(Kind::Numbers(row, Some(piece)))?;
        numbers.push(n)?;
    }
    match pieces.next() {
        Some(piece) => Err(Kind::TooMany(piece)),
        None => Ok(()),
    }
}

// What stands on a line, counted from 0, at a place of it.
fn piece_at(text: &str, line: usize, place: usize) -> Option<&str> {
    text.lines().nth(line)?.split_whitespace().nth(place)
}

// What is said of the number at a place of a journal.
fn fault_at(text: &str, place: usize) -> Fault<Kind<'_>> {
    let (row, line, within) = match place.checked_sub(POINTS) {
        None => (Row::Points, 0, place),
        Some(past) => (Row::Entry, past / ENTRY + 1, past % ENTRY),
    };
    let kind = match (piece_at(text, line, within), row) {
        (None, _) => Kind::Numbers(row, None),
        (Some(found), Row::Points) => Kind::Side(found),
        (Some(found), Row::Entry) => Kind::Number(found, within + 1),
    };
    Fault {
        line: line + 1,
        kind,
    }
}

// The journal of a text, or the line that can't be read.
pub fn read(heap: Global, text: &str) -> Result<Journal, Fault<Kind<'_>>> {
    let mut numbers = Vec::new(heap);
    let mut last = 0;
    for (i, line) in text.lines().enumerate() {
        let row = if i == 0 { Row::Points } else { Row::Entry };
        last = i.saturating_add(1);
        take_line(&mut numbers, line, row).map_err(|kind| Fault { line: last, kind })?;
    }
    Journal::read(heap, &numbers).map_err(|refusal| match refusal {
        Refusal::Place(place) => fault_at(text, place),
        Refusal::Memory => Fault {
            line: last,
            kind: Kind::Memory,
        },
    })
}
