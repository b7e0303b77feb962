// The journal of a station: how its points lay at first, and every event in order with its answer. In numbers, and back.
#![tactic(auto)]

ghost use Rattle.std.specs.Prelude.{◌≡◌, [], ◌∷◌, ◌++◌, map, is_ok, IfOk, if◌then◌else◌};
ghost use Rattle.message.specs.Numbers.{bit};
ghost use Rattle.journal.specs.Entries.{entry_numbers, entry_of, journal_numbers, paired};

use message::Message;
use model::Event;
use std::alloc::{AllocError, Global};

pub mod read;

// An event, and whether it was done.
#[derive(Clone, Copy)]
pub struct Entry {
    pub event: Event,
    pub done: bool,
}

// How the points lay at first, true for left, and the entries in order.
#[derive(Drop)]
pub struct Journal {
    pub lies: [bool; 32],
    pub entries: Vec<Entry>,
}

impl Entry {
    pub fn new(event: Event, done: bool) -> Entry
        ensures { result ≡ entry_of event done }
    {
        Entry { event, done }
    }

    // Its five numbers.
    pub fn numbers(self) -> [u64; 5]
        ensures { result ≡ entry_numbers self }
    {
        Message::Event(self.event, self.done).numbers()
    }
}

// How the points lie, in numbers.
fn lies_numbers(heap: Global, lies: &[bool]) -> Result<Vec<u64>, AllocError>
    ensures { IfOk result (λ v. v.items ≡ map bit lies.now) }
{
    lies.iter().map(|&left| u64::from(left)).collect(heap)
}

impl Journal {
    // Nothing has happened yet.
    pub fn new(heap: Global, lies: [bool; 32]) -> Journal
        ensures lies { result.lies ≡ lies }
        ensures entries { result.entries.items ≡ [] }
    {
        Journal {
            lies,
            entries: Vec::new(heap),
        }
    }

    // One more event, with its answer. For want of memory nothing is kept of it.
    pub fn keep(&mut self, event: Event, done: bool) -> Result<(), AllocError>
        ensures lies { self.new.lies ≡ self.old.lies }
        ensures entries { self.new.entries.items ≡ (if is_ok result then self.old.entries.items ++ entry_of event done ∷ [] else self.old.entries.items) }
    {
        self.entries.push(Entry::new(event, done))?;
        Ok(())
    }

    // The journal of a run: its events, as many as have an answer, each with its own. A run is given the row of its events, and its answers are a row of their own.
    pub fn of_run(
        heap: Global,
        lies: [bool; 32],
        events: &[Event],
        answers: &[bool],
    ) -> Result<Journal, AllocError>
        ensures { IfOk result (λ j. (j.lies ≡ lies) × (j.entries.items ≡ paired events.now answers.now)) }
    {
        let mut journal = Journal::new(heap, lies);
        for (event, done) in events.iter().zip(answers) {
            journal.keep(*event, *done)?;
        }
        Ok(journal)
    }

    // 32 numbers, 1 for a point that lay left, and then five for each entry.
    pub fn numbers(&self, heap: Global) -> Result<Vec<u64>, AllocError>
        ensures { IfOk result (λ v. v.items ≡ journal_numbers self.now.lies self.now.entries.items) }
    {
        let mut numbers = lies_numbers(heap, &self.lies)?;
        for entry in &self.entries {
            numbers.extend_from_slice(&entry.numbers())?;
        }
        Ok(numbers)
    }
}
