// What one line of a plan says.
#![tactic(auto)]

use plan::{End, Need};
use rows::{Needs, OUTSIDE, Path, RouteText};
use words::cursor::{Cursor, Wrong};
use words::fault::Expected;
use words::{Token, Word};

// How many sections or points a text can number: all but outside.
pub const NUMBERED: u16 = 1000;

// The words that a plan may have.
pub static WORDS: [Word; 16] = [
    Word::Section,
    Word::Point,
    Word::Signal,
    Word::Edge,
    Word::Route,
    Word::Time,
    Word::Up,
    Word::Down,
    Word::Outside,
    Word::In,
    Word::Or,
    Word::From,
    Word::By,
    Word::Needs,
    Word::Left,
    Word::Right,
];

// Copy, since a route's path and needs are arrays.
#[derive(Clone, Copy)]
pub enum Statement {
    // A section, and what lies beyond its upper end and its lower end.
    Section(u16, End, End),
    // A point, and its place.
    Point(u16, u16),
    // A signal, up or down, at a section.
    Signal(bool, u16),
    Edge(u16),
    Route(RouteText),
    Time(u16),
}

// The statement of a line that is not empty, or what is wrong with it.
pub fn statement_of(tokens: &[Token]) -> Result<Statement, Wrong> {
    let mut cursor = Cursor::new(tokens);
    let wrong = cursor.wrong(Expected::Statement);
    let Some(Token::Word(first)) = cursor.peek() else {
        return Err(wrong);
    };
    cursor.step();
    match first {
        Word::Section => section(cursor),
        Word::Point => point(cursor),
        Word::Signal => signal(cursor),
        Word::Edge => edge(cursor),
        Word::Route => route(cursor),
        Word::Time => time(cursor),
        _ => Err(wrong),
    }
}

// An end that no point moves.
fn fixed(beyond: u16) -> End {
    End {
        moves: false,
        point: 0,
        on_left: beyond,
        on_right: 0,
    }
}

fn section(mut cursor: Cursor<'_>) -> Result<Statement, Wrong> {
    let x = cursor.below(NUMBERED, Word::Section)?;
    let up = end(&mut cursor, Word::Up)?;
    let last = cursor;
    let down = end(&mut cursor, Word::Down)?;
    let more = if last.left() == cursor.left() {
        Expected::Ends
    } else {
        Expected::Nothing
    };
    cursor.finish(more)?;
    Ok(Statement::Section(x, up, down))
}

// The end that way; one that is left out has outside beyond it.
fn end(cursor: &mut Cursor<'_>, way: Word) -> Result<End, Wrong> {
    if cursor.word_if(way) {
        beyond(cursor)
    } else {
        Ok(fixed(OUTSIDE))
    }
}

// What lies beyond an end.
fn beyond(cursor: &mut Cursor<'_>) -> Result<End, Wrong> {
    if !cursor.word_if(Word::Point) {
        return Ok(fixed(leg(cursor, Expected::Beyond)?));
    }
    let point = cursor.label()?;
    let on_left = leg(cursor, Expected::Leg)?;
    cursor.word(Word::Or)?;
    let on_right = leg(cursor, Expected::Leg)?;
    Ok(End {
        moves: true,
        point,
        on_left,
        on_right,
    })
}

fn leg(cursor: &mut Cursor<'_>, expected: Expected) -> Result<u16, Wrong> {
    if cursor.word_if(Word::Outside) {
        Ok(OUTSIDE)
    } else {
        cursor.number(expected)
    }
}

fn point(mut cursor: Cursor<'_>) -> Result<Statement, Wrong> {
    let q = cursor.below(NUMBERED, Word::Point)?;
    cursor.word(Word::In)?;
    let place = cursor.number(Expected::Number(Word::In))?;
    cursor.finish(Expected::Nothing)?;
    Ok(Statement::Point(q, place))
}

fn signal(mut cursor: Cursor<'_>) -> Result<Statement, Wrong> {
    let up = cursor.either(Word::Up, Word::Down, Expected::Way)?;
    let x = cursor.below(NUMBERED, if up { Word::Up } else { Word::Down })?;
    cursor.finish(Expected::Nothing)?;
    Ok(Statement::Signal(up, x))
}

fn edge(mut cursor: Cursor<'_>) -> Result<Statement, Wrong> {
    let x = cursor.below(NUMBERED, Word::Edge)?;
    cursor.finish(Expected::Nothing)?;
    Ok(Statement::Edge(x))
}

fn time(mut cursor: Cursor<'_>) -> Result<Statement, Wrong> {
    let n = cursor.number(Expected::Number(Word::Time))?;
    cursor.finish(Expected::Nothing)?;
    Ok(Statement::Time(n))
}

fn route(mut cursor: Cursor<'_>) -> Result<Statement, Wrong> {
    let up = cursor.either(Word::Up, Word::Down, Expected::Way)?;
    let begin = begin_of(&mut cursor)?;
    let path = path_of(&mut cursor);
    let needs = last_needs(&mut cursor)?;
    Ok(Statement::Route(RouteText {
        begin,
        up,
        path,
        needs,
    }))
}

fn begin_of(cursor: &mut Cursor<'_>) -> Result<u16, Wrong> {
    cursor.word(Word::From)?;
    let begin = cursor.number(Expected::Number(Word::From))?;
    cursor.word(Word::By)?;
    Ok(begin)
}

fn path_of(cursor: &mut Cursor<'_>) -> Path {
    let mut path = Path::none();
    while let Some(x) = cursor.number_if() {
        path.push(x);
    }
    path
}

// The needs that end a line, which may have none.
fn last_needs(cursor: &mut Cursor<'_>) -> Result<Needs, Wrong> {
    if !cursor.word_if(Word::Needs) {
        cursor.finish(Expected::Path)?;
        return Ok(Needs::none());
    }
    let needs = needs_of(cursor)?;
    cursor.finish(Expected::Needs)?;
    Ok(needs)
}

fn needs_of(cursor: &mut Cursor<'_>) -> Result<Needs, Wrong> {
    let mut needs = Needs::none();
    while let Some(point) = cursor.number_if() {
        let left = cursor.either(Word::Left, Word::Right, Expected::Side)?;
        needs.push(Need { point, left });
    }
    Ok(needs)
}
