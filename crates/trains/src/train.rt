// One train: its way and the sections that it stands in, its front first.
ghost use Rattle.std.specs.Prelude.{◌≡◌, not, [], ◌∷◌, ◌++◌, MatchResult};
ghost use Rattle.interlocking.specs.Says.{state_of};
ghost use Rattle.trains.specs.Trains.{may_go, may_leave, may_reverse};
ghost use Rattle.trains.specs.Held.{mark_all, nowhere, train_of};
ghost use Rattle.trains.specs.Trains.{empty, front, reversed, without_last};
ghost use Rattle.plan.specs.Plan.{beyond, last_of, marks};
ghost use Rattle.plan.specs.View.{plan_of};

use crate::track::{beyond, mark, may_pass, open_here};
use conditions::{may_go, may_leave, may_turn_round};
use interlocking::Interlocking;
use plan::view::Plan;
use std::alloc::{AllocError, Global};

// A train with no sections is nowhere.
#[derive(Drop)]
pub struct Train {
    pub(crate) up: bool,
    pub(crate) body: Vec<u16>,
}

impl Train {
    pub fn nowhere(heap: Global) -> Train
        ensures { train_of result ≡ nowhere }
    {
        Train {
            up: true,
            body: Vec::new(heap),
        }
    }

    pub fn is_nowhere(&self) -> bool
        ensures { result ≡ empty self.now.body.items }
    {
        self.body.is_empty()
    }

    pub fn goes_up(&self) -> bool
        ensures { result ≡ (train_of self.now).up }
    {
        self.up
    }

    // Its sections, its front first.
    pub fn sections(&self) -> &[u16]
        ensures { result.now ≡ (train_of self.now).body }
    {
        self.body.as_slice()
    }

    // Does it stand in one section at most?
    pub fn is_short(&self) -> bool
        ensures { result ≡ empty (without_last self.now.body.items) }
    {
        self.body.len() < 2
    }

    // The section of its front, or 0, as the definitions read past a list's end.
    pub fn front(&self) -> u16
        ensures { result ≡ front self.now.body.items }
    {
        self.body.first().copied().unwrap_or(0)
    }

    // The section of its other end, or 0.
    pub fn back(&self) -> u16
        ensures { result ≡ last_of 0 self.now.body.items }
    {
        self.body.last().copied().unwrap_or(0)
    }

    // Its sections marked.
    pub fn mark(&self, occupied: &mut [bool])
        ensures { occupied.new ≡ mark_all self.now.body.items occupied.old }
    {
        for x in &self.body {
            mark(occupied, *x);
        }
    }

    // What lies beyond its front as the points lie.
    pub fn ahead(&self, plan: Plan<'_>, lies: &[bool]) -> u16
        ensures { result ≡ beyond (plan_of plan.entry) (marks lies.now) self.now.up (front self.now.body.items) }
    {
        beyond(plan, lies, self.up, self.front())
    }

    // Can its front go on, keeping to signals?
    pub fn may_go(&self, plan: Plan<'_>, interlocking: &Interlocking, lies: &[bool]) -> bool
        ensures { result ≡ may_go (plan_of plan.entry) (state_of interlocking.now) (marks lies.now) (train_of self.now) }
    {
        let x = self.front();
        let shown = open_here(plan, interlocking, self.up, x);
        let passes = may_pass(plan.signal(self.up, x), shown);
        may_go(
            self.is_nowhere(),
            self.ahead(plan, lies),
            plan.sections(),
            passes,
        )
    }

    // Is there a signal at its other end, where it can turn round?
    pub fn may_reverse(&self, plan: Plan<'_>) -> bool
        ensures { result ≡ may_reverse (plan_of plan.entry) (train_of self.now) }
    {
        may_turn_round(self.is_nowhere(), plan.signal(!self.up, self.back()))
    }

    // Does it stand in one section with outside before it?
    pub fn may_leave(&self, plan: Plan<'_>, lies: &[bool]) -> bool
        ensures { result ≡ may_leave (plan_of plan.entry) (marks lies.now) (train_of self.now) }
    {
        may_leave(
            self.is_nowhere(),
            self.is_short(),
            plan.sections(),
            self.ahead(plan, lies),
        )
    }

    // Its front goes on into a section.
    pub fn goes(&mut self, x: u16) -> Result<(), AllocError>
        ensures { MatchResult result (λ _. train_of self.new ≡ record { up = self.old.up; body = x ∷ self.old.body.items }) (λ _. train_of self.new ≡ train_of self.old) }
    {
        self.body.insert(0, x)?;
        Ok(())
    }

    // Its end draws up, out of its last section.
    pub fn draws(&mut self)
        ensures { train_of self.new ≡ record { up = self.old.up; body = without_last self.old.body.items } }
    {
        self.body.pop();
    }

    pub fn reverses(&mut self)
        ensures { train_of self.new ≡ record { up = not self.old.up; body = reversed self.old.body.items } }
    {
        self.up = !self.up;
        self.body.reverse();
    }

    // One that is nowhere comes in: a section is put behind those that it has.
    pub fn comes(&mut self, up: bool, x: u16) -> Result<(), AllocError>
        ensures { MatchResult result (λ _. train_of self.new ≡ record { up = up; body = self.old.body.items ++ x ∷ [] }) (λ _. train_of self.new ≡ train_of self.old) }
    {
        self.body.push(x)?;
        self.up = up;
        Ok(())
    }

    pub fn leaves(&mut self)
        ensures { train_of self.new ≡ record { up = self.old.up; body = [] } }
    {
        self.body.clear();
    }
}
