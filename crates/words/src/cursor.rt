// A line's tokens, taken one after the other.
ghost use Rattle.std.specs.Prelude.{◌≡◌, ◌<◌, ◌≤◌, length, IfSome, MatchResult};

use crate::fault::Expected;
use crate::{Token, Word, token_of};
use std::alloc::{AllocError, Global};

// Which token is wrong, and what should stand there. No case for memory: nothing that reads tokens asks for any.
#[derive(Clone, Copy, Debug, PartialEq, Eq)]
pub struct Wrong {
    pub at: usize,
    pub expected: Expected,
}

// The tokens that are left, of so many: the place of a fault is counted from the first.
#[derive(Clone, Copy, Debug)]
pub struct Cursor<'a> {
    rest: &'a [Token],
    count: usize,
    ghost within: { length rest.now ≤ count },
}

// What stands before a comment.
pub fn stated(line: &str) -> &str {
    line.split_once('#').map_or(line, |(front, _)| front)
}

// The tokens of a line with no comment.
pub fn tokens(heap: Global, line: &str) -> Result<Vec<Token>, AllocError> {
    line.split_whitespace().map(token_of).collect(heap)
}

impl<'a> Cursor<'a> {
    ghost use Rattle.words.specs.Cursor.{left_of};

    pub fn new(tokens: &'a [Token]) -> Self
        ensures { left_of result ≡ length tokens.now }
    {
        Cursor {
            rest: tokens,
            count: tokens.len(),
        }
    }

    // The token that comes next.
    pub fn peek(&self) -> Option<Token> {
        self.rest.first().copied()
    }

    pub fn step(&mut self)
        ensures { left_of self.new ≤ left_of self.old }
    {
        if let Some((_, rest)) = self.rest.split_first() {
            self.rest = rest;
        }
    }

    // The fault of the token that comes next.
    pub fn wrong(&self, expected: Expected) -> Wrong {
        Wrong {
            at: self.count - self.rest.len(),
            expected,
        }
    }

    // The number that stands next.
    pub fn number_if(&mut self) -> Option<u16>
        ensures { IfSome result (λ _. left_of self.new < left_of self.old) }
    {
        let Some((&Token::Number(n), rest)) = self.rest.split_first() else {
            return None;
        };
        self.rest = rest;
        Some(n)
    }

    pub fn number(&mut self, expected: Expected) -> Result<u16, Wrong> {
        self.number_if().ok_or(self.wrong(expected))
    }

    // A number below a bound, after a word. What is refused is not taken, so it is looked at first.
    pub fn below(&mut self, bound: u16, after: Word) -> Result<u16, Wrong>
        ensures { MatchResult result (λ n. (n < bound) × (left_of self.new < left_of self.old)) (λ _. self.new ≡ self.old) }
    {
        let Some((&Token::Number(n), rest)) = self.rest.split_first() else {
            return Err(self.wrong(Expected::Number(after)));
        };
        if n >= bound {
            return Err(self.wrong(Expected::Below(bound, after)));
        }
        self.rest = rest;
        Ok(n)
    }

    // A number with a colon.
    pub fn label(&mut self) -> Result<u16, Wrong> {
        let Some(Token::Label(n)) = self.peek() else {
            return Err(self.wrong(Expected::Label));
        };
        self.step();
        Ok(n)
    }

    // Does this word stand next? Then it is taken.
    pub fn word_if(&mut self, word: Word) -> bool
        ensures { left_of self.new ≤ left_of self.old }
    {
        let same = self.peek() == Some(Token::Word(word));
        if same {
            self.step();
        }
        same
    }

    pub fn word(&mut self, word: Word) -> Result<(), Wrong> {
        if self.word_if(word) {
            Ok(())
        } else {
            Err(self.wrong(Expected::Word(word)))
        }
    }

    // One of two words: was it the first?
    pub fn either(&mut self, first: Word, second: Word, expected: Expected) -> Result<bool, Wrong>
        ensures { left_of self.new ≤ left_of self.old }
    {
        if self.word_if(first) {
            Ok(true)
        } else if self.word_if(second) {
            Ok(false)
        } else {
            Err(self.wrong(expected))
        }
    }

    // How many tokens are left.
    pub fn left(&self) -> usize
        ensures { result ≡ left_of self.now }
    {
        self.rest.len()
    }

    // Nothing stands after what was taken.
    pub fn finish(&self, expected: Expected) -> Result<(), Wrong> {
        if self.rest.is_empty() {
            Ok(())
        } else {
            Err(self.wrong(expected))
        }
    }
}
