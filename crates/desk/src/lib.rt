// The desk: requests that people make wait in a row, and are served in order.
#![tactic(auto)]

ghost use Rattle.std.specs.Prelude.{◌≡◌, ◌+◌, ◌-◌, ◌^◌, ◌<◌, ◌≤◌, ◌||◌, [], ◌++◌, length, take, drop, IfOk, MatchResult, ◌==◌, nat_le};
ghost use Rattle.desk.specs.Desk.{answers, Asked, first_at, KeepsOrder, served_all, Serves, waiting_of, waits, without};
ghost use Rattle.interlocking.specs.Says.{state_of};
ghost use Rattle.plan.specs.Plan.{marks};
ghost use Rattle.plan.specs.View.{plan_of};

use interlocking::{Answer, Interlocking, Request, Sight};
use std::alloc::{AllocError, Global};

// So many requests can wait.
pub const CAPACITY: usize = 64;

// A request that waits, and the number by which it is known.
#[derive(Clone, Copy, Debug, Default, PartialEq, Eq)]
pub struct Ticketed {
    pub ticket: u64,
    pub request: Request,
}

// What became of a request.
#[derive(Clone, Copy, Debug, PartialEq, Eq)]
pub struct Served {
    pub ticket: u64,
    pub answer: Answer,
}

// There is no room, or there are no numbers left.
#[derive(Clone, Copy, Debug, PartialEq, Eq)]
pub struct Full;

// The first so many places hold what waits, oldest first; what stands behind them counts for nothing.
// An array, so that a desk is `Copy`, which an `ArrayVec` is not.
#[derive(Clone, Copy)]
pub struct Desk {
    places: [Ticketed; CAPACITY],
    count: usize,
    next: u64,
}

// Is there no room, or no number left?
fn is_full(count: usize, next: u64) -> bool
    ensures { result ≡ (nat_le 64 count || nat_le (2 ^ 64 - 1) next) }
{
    count >= CAPACITY || next == u64::MAX
}

// The first so many, or all.
fn front(places: &[Ticketed], count: usize) -> &[Ticketed]
    ensures row { result.now ≡ take count places.now }
    ensures few { length result.now ≤ length places.now }
{
    if count < places.len() {
        &places[..count]
    } else {
        places
    }
}

// Where a ticket stands among those that wait, or past the last.
fn place_of(waiting: &[Ticketed], ticket: u64) -> usize
    ensures { result ≡ first_at ticket waiting.now }
{
    waiting
        .iter()
        .position(|w| w.ticket == ticket)
        .unwrap_or(waiting.len())
}

impl Desk {
    // Nobody waits, and the first number is 0.
    pub fn new() -> Desk
        ensures empty { waiting_of result ≡ [] }
        ensures first { result.next ≡ 0 }
    {
        Desk {
            places: [Ticketed::default(); CAPACITY],
            count: 0,
            next: 0,
        }
    }

    // How many wait.
    pub fn len(&self) -> usize
        ensures count { result ≡ length (waiting_of self.now) }
        ensures few { result ≤ 64 }
    {
        self.waiting().len()
    }

    pub fn is_empty(&self) -> bool
        ensures { result ≡ (length (waiting_of self.now) == 0) }
    {
        self.len() == 0
    }

    // Those that wait, oldest first.
    pub fn waiting(&self) -> &[Ticketed]
        ensures row { result.now ≡ waiting_of self.now }
        ensures few { length result.now ≤ 64 }
    {
        front(&self.places, self.count)
    }

    // A request waits behind all others, under a number of its own; a full desk refuses it and stays as it is.
    pub fn ask(&mut self, request: Request) -> Result<u64, Full>
        ensures { Asked request self.old self.new result }
    {
        let count = self.len();
        let ticket = self.next;
        if is_full(count, ticket) {
            return Err(Full);
        }
        self.places[count] = Ticketed { ticket, request };
        self.count = count + 1;
        self.next = ticket + 1;
        Ok(ticket)
    }

    // Those behind a place move up by one.
    fn remove(&mut self, i: usize)
        requires within { i < 64 }
        requires waits { i < length (waiting_of self.old) }
        ensures waiting { waiting_of self.new ≡ take i (waiting_of self.old) ++ drop (i + 1) (waiting_of self.old) }
        ensures next { self.new.next ≡ self.old.next }
    {
        let count = self.len();
        self.places.copy_within(i + 1.., i);
        self.count = count - 1;
    }

    // A request is withdrawn while it waits: it goes, and the others stay in their order.
    // `ask` alone changes `next`. That it stays is said of each call: an invariant speaks of one desk, not of it before and after.
    pub fn withdraw(&mut self, ticket: u64) -> bool
        ensures answer { result ≡ waits ticket (waiting_of self.old) }
        ensures waiting { waiting_of self.new ≡ without ticket (waiting_of self.old) }
        ensures next { self.new.next ≡ self.old.next }
    {
        let i = place_of(self.waiting(), ticket);
        if i < self.len() {
            self.remove(i);
            return true;
        }
        false
    }

    // The oldest is served, if anybody waits.
    // What is set is given up and got back, and what is seen is only read: a struct of both would be taken apart at once.
    pub fn serve(
        &mut self,
        interlocking: Interlocking,
        sight: Sight<'_>,
    ) -> (Interlocking, Option<Served>)
        ensures served { Serves (plan_of sight.entry.plan) interlocking (marks sight.entry.occupied.now) (marks sight.entry.lies.now) (waiting_of self.old) (waiting_of self.new) result.0 result.1 }
        ensures next { self.new.next ≡ self.old.next }
    {
        if self.is_empty() {
            return (interlocking, None);
        }
        let first = self.places[0];
        let (left, answer) = interlocking.perform(sight, first.request);
        self.remove(0);
        (
            left,
            Some(Served {
                ticket: first.ticket,
                answer,
            }),
        )
    }

    // All that wait are served, oldest first, each once; if there is no memory for the answers, none is.
    pub fn serve_all(
        &mut self,
        heap: Global,
        interlocking: Interlocking,
        sight: Sight<'_>,
    ) -> Result<(Interlocking, Vec<Served>), AllocError>
        ensures served { MatchResult result (λ a. (state_of a.0 ≡ served_all (plan_of sight.entry.plan) (marks sight.entry.occupied.now) (marks sight.entry.lies.now) (waiting_of self.old) (state_of interlocking)) × (a.1.items ≡ answers (plan_of sight.entry.plan) (marks sight.entry.occupied.now) (marks sight.entry.lies.now) (waiting_of self.old) (state_of interlocking)) × (waiting_of self.new ≡ [])) (λ _. self.new ≡ self.old) }
        ensures next { self.new.next ≡ self.old.next }
    {
        let (left, served) = answer_all(heap, self.waiting(), interlocking, sight)?;
        self.count = 0;
        Ok((left, served))
    }
}

// Requests performed one after the other, and what became of each.
fn answer_all(
    heap: Global,
    waiting: &[Ticketed],
    interlocking: Interlocking,
    sight: Sight<'_>,
) -> Result<(Interlocking, Vec<Served>), AllocError>
    ensures { IfOk result (λ a. (state_of a.0 ≡ served_all (plan_of sight.entry.plan) (marks sight.entry.occupied.now) (marks sight.entry.lies.now) waiting.now (state_of interlocking)) × (a.1.items ≡ answers (plan_of sight.entry.plan) (marks sight.entry.occupied.now) (marks sight.entry.lies.now) waiting.now (state_of interlocking))) }
{
    let mut left = interlocking;
    let mut served = Vec::new(heap);
    for w in waiting {
        let (after, answer) = left.perform(sight, w.request);
        served.push(Served {
            ticket: w.ticket,
            answer,
        })?;
        left = after;
    }
    Ok((left, served))
}

// Tickets stand in the order in which they were given, none twice, whatever is done at the desk.
pub fn keeps_order()
    ensures { KeepsOrder }
{}
