// A route is taken back.
ghost use Rattle.std.specs.Prelude.{◌≡◌, not, ◌&&◌, ◌==◌, slice_index_or};
ghost use Rattle.interlocking.specs.Says.{does_at, SaysAt, state_of};
ghost use Rattle.interlocking.specs.State.{forget, taken_back};
ghost use Rattle.interlocking.specs.declared.Request.TheVariants.{Back};
ghost use Rattle.interlocking.specs.declared.Stage.TheVariants.{Idle};

use crate::{Answer, Interlocking, Request, RouteNumber, Sight, Stage, sweep};
use conditions::may_take_back;
use std::array;

// Is a section still passed, if what has this lock is passed no more?
fn still_passed(passed: bool, held: u16, lock: u16) -> bool
    ensures { result ≡ (not (held == lock) && passed) }
{
    (held != lock) & passed
}

impl Interlocking {
    fn can_back(&self, sight: Sight<'_>, r: usize) -> bool
        ensures { result ≡ does_at sight.entry (state_of self.now) (Back r) }
    {
        let vacant = sweep::all_vacant(sight.occupied, sight.plan.route(r).path());
        let stage = self.stage_of(r);
        may_take_back(
            r < sight.plan.routes() as usize,
            stage.can_fall(),
            stage.is_used(),
            vacant,
        )
    }

    // The sections of a route are not passed.
    fn forget(mut self, r: RouteNumber) -> Self
        ensures { state_of result ≡ forget (state_of self) r.number }
    {
        let lock = r.lock();
        let passed = array::from_fn(|x| still_passed(self.is_passed(x), self.lock_of(x), lock));
        self.passed = passed;
        self
    }

    fn taken_back(self, r: RouteNumber, time: u16) -> Self
        ensures { state_of result ≡ taken_back time (state_of self) r.number (slice_index_or self.stages r.number Idle) }
    {
        match self.stages[r.number] {
            Stage::Set => self.let_go(r),
            Stage::Shown => self.restaged(r, Stage::Falling(time)),
            Stage::Used => self.forget(r).let_go(r),
            _ => self,
        }
    }

    // A set route is let go at once, a shown one falls, a used one with nothing in its path is let go.
    pub fn back(mut self, sight: Sight<'_>, r: usize) -> (Self, Answer)
        ensures { SaysAt sight.entry self (Back r) result.0 result.1 }
    {
        let done = self.can_back(sight, r);
        if done {
            self = self.taken_back(RouteNumber { number: r }, sight.plan.time());
        }
        (self, Request::Back(r).answered(done))
    }
}
