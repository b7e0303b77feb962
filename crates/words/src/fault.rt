// What is said of a line that can't be read.
ghost use Rattle.std.specs.Prelude.{◌≡◌};
ghost use Rattle.words.specs.declared.fault.Kind.TheVariants.{Memory};

use crate::cursor::Wrong;
use crate::near::nearest;
use crate::{Word, word_of};
use std::alloc::{AllocError, AllocFailed};
use std::fmt;

// A line, counted from 1, and what is wrong there.
#[derive(Clone, Copy, Debug, PartialEq, Eq, Drop)]
pub struct Fault<K> {
    pub line: usize,
    pub kind: K,
}

#[derive(Clone, Copy, Debug, PartialEq, Eq)]
pub enum Kind<'a> {
    // There is no memory to read it.
    Memory,
    // Something else stands there, or nothing more.
    Expected(Expected, Option<&'a str>),
    // A word that is none, and the one that was meant.
    Unknown(&'a str, Word),
    // A section or a point that has a line already.
    Twice(Word, u16, usize),
    // A section or a point that has no line, though a later one has.
    Missing(Word, u16),
    // A signal or an edge at a section that has no line.
    NoSection(u16),
    // A second line for the time.
    Second(usize),
    // How points lie is said before the first event.
    TooLate,
}

// What should stand there.
#[derive(Clone, Copy, Debug, PartialEq, Eq)]
pub enum Expected {
    // The first word of a line of a plan.
    Statement,
    // The first word of an event.
    Event,
    Word(Word),
    Number(Word),
    // A number below a bound.
    Below(u16, Word),
    Label,
    Way,
    Side,
    // What lies beyond an end, and beyond a leg of a point.
    Beyond,
    Leg,
    // The ends of a section.
    Ends,
    // More sections of a path, and more needs.
    Path,
    Needs,
    Nothing,
}

impl Expected {
    // Might a word stand there? Then one that is none may be misspelled.
    fn takes_word(self) -> bool {
        !matches!(
            self,
            Expected::Number(_) | Expected::Below(_, _) | Expected::Label | Expected::Nothing
        )
    }
}

// What is wrong with the line, in which these are the known words.
pub fn kind_of<'a>(text: &'a str, wrong: Wrong, known: &[Word]) -> Kind<'a> {
    let Wrong { at, expected } = wrong;
    let Some(found) = text.split_whitespace().nth(at) else {
        return Kind::Expected(expected, None);
    };
    if expected.takes_word() && word_of(found).is_none() {
        if let Some(word) = nearest(found, known) {
            return Kind::Unknown(found, word);
        }
    }
    Kind::Expected(expected, Some(found))
}

// The library has two types for want of memory, and `?` takes a `From` for each.
impl From<AllocError> for Kind<'_> {
    ghost from_gives = { λ _ k. k ≡ Memory };

    fn from(_e: AllocError) -> Self {
        Kind::Memory
    }
}

impl<T: Drop> From<AllocFailed<T>> for Kind<'_> {
    ghost from_gives = { λ _ k. k ≡ Memory };

    fn from(_e: AllocFailed<T>) -> Self {
        Kind::Memory
    }
}

impl fmt::Display for Word {
    fn fmt<W: fmt::Write>(&self, f: &mut fmt::Formatter<W>) -> fmt::Result {
        let name = self.name();
        write!(f, "{name}")
    }
}

impl fmt::Display for Expected {
    fn fmt<W: fmt::Write>(&self, f: &mut fmt::Formatter<W>) -> fmt::Result {
        match self {
            Expected::Statement => write!(
                f,
                "'section', 'point', 'signal', 'edge', 'route' or 'time'"
            ),
            Expected::Event => write!(f, "an event"),
            Expected::Word(word) => write!(f, "'{word}'"),
            Expected::Number(word) => write!(f, "a number after '{word}'"),
            Expected::Below(bound, word) => write!(f, "a number below {bound} after '{word}'"),
            Expected::Label => write!(f, "a number with a colon after 'point'"),
            Expected::Way => write!(f, "'up' or 'down'"),
            Expected::Side => write!(f, "'left' or 'right'"),
            Expected::Beyond => write!(f, "a number, 'outside' or 'point'"),
            Expected::Leg => write!(f, "a number or 'outside'"),
            Expected::Ends => write!(f, "'up', 'down' or the end of the line"),
            Expected::Path => write!(f, "a number, 'needs' or the end of the line"),
            Expected::Needs => write!(f, "a number or the end of the line"),
            Expected::Nothing => write!(f, "the end of the line"),
        }
    }
}

// What was found may hold control characters, which would reach the terminal: it is shown escaped.
impl fmt::Display for Kind<'_> {
    fn fmt<W: fmt::Write>(&self, f: &mut fmt::Formatter<W>) -> fmt::Result {
        match self {
            Kind::Memory => write!(f, "no memory is left"),
            Kind::Expected(what, Some(found)) => {
                let found = found.escape_debug();
                write!(f, "expected {what}, found '{found}'")
            }
            Kind::Expected(what, None) => write!(f, "expected {what}, found the end of the line"),
            Kind::Unknown(found, word) => {
                let found = found.escape_debug();
                write!(f, "unknown word '{found}', did you mean '{word}'?")
            }
            Kind::Twice(word, n, line) => write!(f, "{word} {n} has a line already, line {line}"),
            Kind::Missing(word, n) => write!(f, "expected a line for {word} {n} too, found none"),
            Kind::NoSection(n) => write!(f, "expected a section that has a line, found {n}"),
            Kind::Second(line) => write!(f, "the time has a line already, line {line}"),
            Kind::TooLate => write!(f, "expected 'lies' only before the first event"),
        }
    }
}

impl<K: fmt::Display> fmt::Display for Fault<K> {
    fn fmt<W: fmt::Write>(&self, f: &mut fmt::Formatter<W>) -> fmt::Result {
        let line = self.line;
        let kind = &self.kind;
        write!(f, "line {line}: {kind}")
    }
}
