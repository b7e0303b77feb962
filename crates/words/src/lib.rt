// Lines of words and numbers: what stands in them, and what is said of a line that can't be read.
#![tactic(auto)]

ghost use Rattle.std.specs.Prelude.{◌≡◌, ℕ, ◌^◌, ◌<◌, IfSome, Some, decimal};
ghost use Rattle.std.specs.Char.{is_ascii_digit};
ghost use Rattle.std.specs.List.{find, list_all};
ghost use Rattle.std.specs.Str.{bytes_eq};
ghost use Rattle.words.specs.Spelled.{spelled};

pub mod cursor;
pub mod fault;
pub mod near;

// The words of plans and of events.
#[derive(Clone, Copy, Debug, PartialEq, Eq)]
pub enum Word {
    Section,
    Point,
    Signal,
    Edge,
    Route,
    Time,
    Up,
    Down,
    Outside,
    In,
    Or,
    From,
    By,
    Needs,
    Left,
    Right,
    Ask,
    Clear,
    Back,
    Free,
    Tick,
    Turns,
    Comes,
    Goes,
    Draws,
    Reverses,
    Leaves,
    Lies,
}

// One piece of a line: a word, a number, a number with a colon, or anything else.
#[derive(Clone, Copy, Debug, PartialEq, Eq)]
pub enum Token {
    Word(Word),
    Number(u16),
    Label(u16),
    Other,
}

// Each word once: no derive of the language lists the cases of an enum.
static ALL: [Word; 28] = [
    Word::Section,
    Word::Point,
    Word::Signal,
    Word::Edge,
    Word::Route,
    Word::Time,
    Word::Up,
    Word::Down,
    Word::Outside,
    Word::In,
    Word::Or,
    Word::From,
    Word::By,
    Word::Needs,
    Word::Left,
    Word::Right,
    Word::Ask,
    Word::Clear,
    Word::Back,
    Word::Free,
    Word::Tick,
    Word::Turns,
    Word::Comes,
    Word::Goes,
    Word::Draws,
    Word::Reverses,
    Word::Leaves,
    Word::Lies,
];

impl Word {
    // As it is spelled, which no derive of the language prints.
    pub fn name(self) -> &'static str
        ensures { result.now ≡ spelled self }
    {
        match self {
            Word::Section => "section",
            Word::Point => "point",
            Word::Signal => "signal",
            Word::Edge => "edge",
            Word::Route => "route",
            Word::Time => "time",
            Word::Up => "up",
            Word::Down => "down",
            Word::Outside => "outside",
            Word::In => "in",
            Word::Or => "or",
            Word::From => "from",
            Word::By => "by",
            Word::Needs => "needs",
            Word::Left => "left",
            Word::Right => "right",
            Word::Ask => "ask",
            Word::Clear => "clear",
            Word::Back => "back",
            Word::Free => "free",
            Word::Tick => "tick",
            Word::Turns => "turns",
            Word::Comes => "comes",
            Word::Goes => "goes",
            Word::Draws => "draws",
            Word::Reverses => "reverses",
            Word::Leaves => "leaves",
            Word::Lies => "lies",
        }
    }
}

// The word that is spelled so.
pub fn word_of(text: &str) -> Option<Word>
    ensures only { IfSome result (λ w. text.now ≡ spelled w) }
    ensures every { (w : Word) → text.now ≡ spelled w → result ≡ Some w }
{
    first_spelled(&ALL, text)
}

// The first of these words that is spelled so.
fn first_spelled(words: &[Word], text: &str) -> Option<Word>
    ensures first { result ≡ find (λ w. bytes_eq (spelled w) text.now) words.now }
    ensures only { IfSome result (λ w. text.now ≡ spelled w) }
{
    words.iter().copied().find(|word| word.name() == text)
}

// A number in digits; one that is too large to hold is held as the largest, which no plan may have: it is a number, and is refused as one.
pub fn number_of(text: &str) -> Option<u16>
    ensures { (n : ℕ) → n < 2 ^ 16 → text.now ≡ decimal n → result ≡ Some n }
{
    let bytes = text.as_bytes();
    if bytes.is_empty() || !all_digits(bytes) {
        return None;
    }
    Some(text.parse().unwrap_or(u16::MAX))
}

fn all_digits(bytes: &[u8]) -> bool
    ensures { result ≡ list_all is_ascii_digit bytes.now }
{
    bytes.iter().all(|b| b.is_ascii_digit())
}

// No word has a digit or a colon, so what is told by its first or last byte comes before the table of words.
pub fn token_of(text: &str) -> Token {
    number_of(text)
        .map(Token::Number)
        .or_else(|| text.strip_suffix(':').and_then(number_of).map(Token::Label))
        .or_else(|| word_of(text).map(Token::Word))
        .unwrap_or(Token::Other)
}
