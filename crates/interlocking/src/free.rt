// A section is freed.
ghost use Rattle.std.specs.Prelude.{◌≡◌, ◌<◌, ◌≤◌, slice_index};
ghost use Rattle.interlocking.specs.Says.{does_at, SaysAt, state_of};
ghost use Rattle.interlocking.specs.State.{behind_free, done};
ghost use Rattle.interlocking.specs.declared.Request.TheVariants.{Free};
ghost use Rattle.interlocking.specs.declared.Stage.TheVariants.{Idle};
ghost use Rattle.plan.specs.Plan.{pick};
ghost use Rattle.plan.specs.View.{plan_of};

use crate::{Answer, Interlocking, Request, Sight, Stage};
use conditions::may_free;
use plan::read::mark_at;
use plan::view::Plan;

// With its last section the route is idle.
fn stage_left(stage: Stage, last: bool) -> Stage
    ensures { result ≡ pick last Idle stage }
{
    if last { Stage::Idle } else { stage }
}

impl Interlocking {
    // Is nothing of a path before a section still locked so?
    fn behind_free(&self, path: &[u16], x: usize, lock: u16) -> bool
        ensures { result ≡ behind_free (state_of self.now) lock x path.now }
    {
        for y in path {
            let y = *y as usize;
            if y == x {
                return true;
            }
            if self.lock_of(y) == lock {
                return false;
            }
        }
        true
    }

    fn can_free(&self, sight: Sight<'_>, x: usize) -> bool
        ensures { result ≡ does_at sight.entry (state_of self.now) (Free x) }
    {
        let lock = self.lock_of(x);
        if lock == 0 || lock > sight.plan.routes() {
            return false;
        }
        let r = lock as usize - 1;
        let route = sight.plan.route(r);
        let behind = self.behind_free(route.path(), x, lock);
        let last = x == route.last() as usize;
        may_free(
            self.is_passed(x),
            self.stage_of(r).is_used(),
            behind,
            mark_at(sight.occupied, x),
            last,
        )
    }

    fn freed(mut self, plan: Plan<'_>, x: usize) -> Self
        requires within { x < 64 }
        requires locked { 0 < slice_index self.locks x }
        requires there { slice_index self.locks x ≤ 64 }
        ensures { state_of result ≡ done (plan_of plan.entry) (state_of self) (Free x) }
    {
        let r = self.locks[x] as usize - 1;
        let last = x == plan.route(r).last() as usize;
        let stage = stage_left(self.stages[r], last);
        self.locks[x] = 0;
        self.passed[x] = false;
        self.stages[r] = stage;
        self
    }

    // A section is locked no more; with the last one of its path the route is idle.
    pub fn free(mut self, sight: Sight<'_>, x: usize) -> (Self, Answer)
        ensures { SaysAt sight.entry self (Free x) result.0 result.1 }
    {
        let done = self.can_free(sight, x);
        if done {
            self = self.freed(sight.plan, x);
        }
        (self, Request::Free(x).answered(done))
    }
}
