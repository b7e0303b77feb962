// A journal from its numbers, or the first place that no journal can have so.
ghost use Rattle.std.specs.Prelude.{◌≡◌, ◌<◌, ◌&&◌, map, length, take, MatchOption, MatchResult, ◌==◌, nat_lt, slice_index};
ghost use Rattle.message.specs.Numbers.{bit, message_numbers};
ghost use Rattle.message.specs.declared.Message.TheVariants.{Event as EventTold};
ghost use Rattle.journal.specs.Entries.{entry_numbers};
ghost use Rattle.journal.specs.declared.read.Refusal.TheVariants.{Memory, Place};
ghost use Rattle.journal.specs.Reads.{FirstWrong, FirstWrongEntry, ReadBack, Reads};

use crate::{Entry, Journal};
use message::{Message, WrongAt};
use std::alloc::{AllocError, Global};

// Why numbers are not read: for want of memory, or the first place that is wrong. No generic type, since clauses name its own cases.
#[derive(Debug, Clone, Copy, PartialEq, Eq)]
pub enum Refusal {
    Memory,
    Place(usize),
}

impl From<AllocError> for Refusal {
    ghost from_gives = { λ _ refusal. refusal ≡ Memory };

    fn from(_error: AllocError) -> Refusal {
        Refusal::Memory
    }
}

impl From<WrongAt> for Refusal {
    ghost from_gives = { λ wrong refusal. refusal ≡ Place wrong.place };

    fn from(wrong: WrongAt) -> Refusal {
        Refusal::Place(wrong.place)
    }
}

// How a point lay, where the numbers say so.
fn lay_at(numbers: &[u64], place: usize) -> Option<bool>
    ensures { MatchOption result ((place < length numbers.now → 1 < slice_index numbers.now place)) (λ b. (place < length numbers.now) × (slice_index numbers.now place ≡ bit b)) }
{
    match numbers.get(place) {
        Some(0) => Some(false),
        Some(1) => Some(true),
        _ => None,
    }
}

// How the points lay, or the first place that is wrong.
fn lies_in(numbers: &[u64]) -> Result<[bool; 32], WrongAt>
    ensures { MatchResult result (λ lies. (length lies ≡ 32) × (take 32 numbers.now ≡ map bit lies)) (λ w. FirstWrong numbers.now w.place) }
{
    let mut lies = [false; 32];
    for (place, left) in lies.iter_mut().enumerate() {
        *left = lay_at(numbers, place).ok_or(WrongAt { place })?;
    }
    Ok(lies)
}

// Do they begin as those of an event do?
fn is_event(numbers: &[u64]) -> bool
    ensures { result ≡ (nat_lt 0 (length numbers.now) && slice_index numbers.now 0 == 2) }
{
    numbers.first() == Some(&2)
}

// Only an event is an entry: of what else is told the first number is wrong.
impl TryFrom<Message> for Entry {
    type Error = WrongAt;

    ghost try_from_gives = { λ message result. MatchResult result (λ e. message ≡ EventTold e.event e.done) (λ w. (w.place ≡ 0) × (slice_index (message_numbers message) 0 < 2)) };

    fn try_from(message: Message) -> Result<Entry, WrongAt> {
        match message {
            Message::Event(event, done) => Ok(Entry::new(event, done)),
            Message::Request(_) => Err(WrongAt { place: 0 }),
            Message::Answer(_) => Err(WrongAt { place: 0 }),
        }
    }
}

// The entry that has these numbers, or the first place that none can have so.
fn entry_in(numbers: &[u64]) -> Result<Entry, WrongAt>
    ensures { MatchResult result (λ e. numbers.now ≡ entry_numbers e) (λ w. FirstWrongEntry numbers.now w.place) }
{
    match Message::try_from(numbers) {
        Ok(message) => Entry::try_from(message),
        Err(wrong) if is_event(numbers) => Err(wrong),
        Err(_) => Err(WrongAt { place: 0 }),
    }
}

impl Journal {
    pub fn read(heap: Global, numbers: &[u64]) -> Result<Journal, Refusal>
        ensures { Reads numbers.now result }
    {
        let mut journal = Journal::new(heap, lies_in(numbers)?);
        let rows = &numbers[32..];
        for (i, few) in rows.chunks(5).enumerate() {
            match entry_in(few) {
                Ok(entry) => journal.keep(entry.event, entry.done)?,
                Err(wrong) => return Err(Refusal::Place(32 + 5 * i + wrong.place)),
            }
        }
        Ok(journal)
    }
}

// No two journals have the same numbers, so what is written is read back the same.
pub fn read_back_holds()
    ensures { ReadBack }
{}
