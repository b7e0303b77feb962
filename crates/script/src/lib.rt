// Rows of events as texts.
#![tactic(auto)]

use interlocking::Request;
use model::Event;
use std::alloc::Global;
use words::cursor::{Cursor, Wrong, stated, tokens};
use words::fault::{Expected, Fault, Kind, kind_of};
use words::{Token, Word};

// The words that events may have.
pub static WORDS: [Word; 16] = [
    Word::Ask,
    Word::Clear,
    Word::Back,
    Word::Free,
    Word::Tick,
    Word::Turns,
    Word::Comes,
    Word::Goes,
    Word::Draws,
    Word::Reverses,
    Word::Leaves,
    Word::Lies,
    Word::Up,
    Word::Down,
    Word::Left,
    Word::Right,
];

// How points lie at first, true for left, and the events.
#[derive(Drop)]
pub struct Script {
    pub lies: [bool; 32],
    pub events: Vec<Event>,
}

// An event, or how a point lies at first.
#[derive(Clone, Copy)]
pub enum Line {
    Event(Event),
    Lies(usize, bool),
}

// What a line that is not empty says, or what is wrong with it.
pub fn line_of(tokens: &[Token]) -> Result<Line, Wrong> {
    let mut cursor = Cursor::new(tokens);
    let line = if cursor.word_if(Word::Lies) {
        lies(&mut cursor)?
    } else {
        Line::Event(event(&mut cursor)?)
    };
    cursor.finish(Expected::Nothing)?;
    Ok(line)
}

fn event(cursor: &mut Cursor<'_>) -> Result<Event, Wrong> {
    let wrong = cursor.wrong(Expected::Event);
    let Some(Token::Word(first)) = cursor.peek() else {
        return Err(wrong);
    };
    cursor.step();
    Ok(match first {
        Word::Ask => Event::Asked(Request::Ask(one(cursor, first)?)),
        Word::Clear => Event::Asked(Request::Clear(one(cursor, first)?)),
        Word::Back => Event::Asked(Request::Back(one(cursor, first)?)),
        Word::Free => Event::Asked(Request::Free(one(cursor, first)?)),
        Word::Tick => Event::Asked(Request::Tick),
        Word::Turns => Event::Turns(one(cursor, first)?),
        Word::Goes => Event::Goes(one(cursor, first)?),
        Word::Draws => Event::Draws(one(cursor, first)?),
        Word::Reverses => Event::Reverses(one(cursor, first)?),
        Word::Leaves => Event::Leaves(one(cursor, first)?),
        Word::Comes => comes(cursor)?,
        _ => return Err(wrong),
    })
}

// The number after a word.
fn one(cursor: &mut Cursor<'_>, word: Word) -> Result<usize, Wrong> {
    cursor.number(Expected::Number(word)).map(usize::from)
}

fn comes(cursor: &mut Cursor<'_>) -> Result<Event, Wrong> {
    let train = cursor.number(Expected::Number(Word::Comes))?;
    let up = cursor.either(Word::Up, Word::Down, Expected::Way)?;
    let x = cursor.number(Expected::Number(if up { Word::Up } else { Word::Down }))?;
    Ok(Event::Comes(usize::from(train), up, usize::from(x)))
}

fn lies(cursor: &mut Cursor<'_>) -> Result<Line, Wrong> {
    let q = cursor.below(32, Word::Lies)?;
    let left = cursor.either(Word::Left, Word::Right, Expected::Side)?;
    Ok(Line::Lies(usize::from(q), left))
}

impl Script {
    // Takes what one line says, which may be nothing. A plan's line is read in the same steps: one function for both, with closures for what differs, is longer.
    fn read_line<'a>(&mut self, heap: Global, text: &'a str) -> Result<(), Kind<'a>> {
        let tokens = tokens(heap, text)?;
        if tokens.is_empty() {
            return Ok(());
        }
        let line = line_of(&tokens).map_err(|wrong| kind_of(text, wrong, &WORDS))?;
        self.take(line)
    }

    fn take<'a>(&mut self, line: Line) -> Result<(), Kind<'a>> {
        match line {
            Line::Event(event) => self.events.push(event)?,
            Line::Lies(_, _) if !self.events.is_empty() => return Err(Kind::TooLate),
            Line::Lies(q, left) => if let Some(lies) = self.lies.get_mut(q) {
                *lies = left;
            },
        }
        Ok(())
    }
}

// The events of a text, or the line that can't be read.
pub fn read_events(heap: Global, text: &str) -> Result<Script, Fault<Kind<'_>>> {
    let mut script = Script {
        lies: [true; 32],
        events: Vec::new(heap),
    };
    for (i, line) in text.lines().enumerate() {
        script.read_line(heap, stated(line)).map_err(|kind| Fault {
            line: i.saturating_add(1),
            kind,
        })?;
    }
    Ok(script)
}
