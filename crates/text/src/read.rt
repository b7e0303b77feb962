// A plan's text to its numbers.
ghost use Rattle.plan.specs.Numbers.{refused};
ghost use Rattle.rows.specs.Rows.{NotLength};
ghost use Rattle.std.specs.Prelude.{IfOk};

use crate::draft::Draft;
use statement::{WORDS, statement_of};
use std::alloc::Global;
use words::cursor::{stated, tokens};
use words::fault::{Fault, Kind, kind_of};

// The numbers that a text says, which may still be refused, but not for how many they are, or the line that can't be read.
pub fn read_plan(heap: Global, text: &str) -> Result<Vec<u16>, Fault<Kind<'_>>>
    ensures { IfOk result (λ v. NotLength (refused v.items)) }
{
    let mut draft = Draft::new();
    let mut last = 1;
    for (i, line) in text.lines().enumerate() {
        last = i.saturating_add(1);
        read_line(heap, &mut draft, last, stated(line)).map_err(|kind| Fault { line: last, kind })?;
    }
    if let Some(fault) = draft.missing() {
        return Err(fault);
    }
    draft.numbers(heap).map_err(|_| Fault {
        line: last,
        kind: Kind::Memory,
    })
}

// Takes one line into the draft, which may be empty, or says what is wrong with it. An event's line is read in the same steps: one function for both, with closures for what differs, is longer.
fn read_line<'a>(
    heap: Global,
    draft: &mut Draft,
    line: usize,
    text: &'a str,
) -> Result<(), Kind<'a>> {
    let tokens = tokens(heap, text)?;
    if tokens.is_empty() {
        return Ok(());
    }
    let said = statement_of(&tokens).map_err(|wrong| kind_of(text, wrong, &WORDS))?;
    draft.take(line, said)
}
