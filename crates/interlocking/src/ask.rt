// A route is asked for.
ghost use Rattle.std.specs.Prelude.{◌≡◌, false, not, ◌&&◌, length, ◌==◌, slice_index, slice_index_or, slice_set};
ghost use Rattle.interlocking.specs.Says.{does_at, lock_path, SaysAt, state_of, want_all, with_lock, with_wanted};
ghost use Rattle.interlocking.specs.State.{all_free, can_have, can_want, done, fitted, held, is_idle};
ghost use Rattle.interlocking.specs.declared.Request.TheVariants.{Ask};
ghost use Rattle.interlocking.specs.declared.Stage.TheVariants.{Idle};
ghost use Rattle.plan.specs.Plan.{marks, needed, route as the_route};
ghost use Rattle.plan.specs.View.{plan_of, route_of};

use crate::{Answer, Interlocking, Request, RouteNumber, Sight, Stage};
use conditions::{is_free, may_set, may_turn};
use plan::Need;
use plan::read::mark_at;
use plan::route::Route;
use plan::view::Plan;

impl Interlocking {
    // A section that nothing has locked and nothing stands in.
    fn is_free(&self, occupied: &[bool], x: usize) -> bool
        ensures { result ≡ (slice_index self.now.locks x == 0 && not (slice_index_or occupied.now x false)) }
    {
        is_free(self.lock_of(x), mark_at(occupied, x))
    }

    fn all_free(&self, occupied: &[bool], path: &[u16]) -> bool
        ensures { result ≡ all_free (state_of self.now) (marks occupied.now) path.now }
    {
        path.iter().all(|&x| self.is_free(occupied, x as usize))
    }

    // Does a route that is not idle need a point?
    fn holds(&self, plan: Plan<'_>, r: usize, q: u16) -> bool
        ensures { result ≡ (not (is_idle (slice_index_or self.now.stages r Idle)) && needed q (the_route (plan_of plan.entry) r).needs) }
    {
        !self.stage_of(r).is_idle() && plan.route(r).needs_point(q)
    }

    fn held(&self, plan: Plan<'_>, q: u16) -> bool
        ensures { result ≡ held (plan_of plan.entry) (state_of self.now) q (length (plan_of plan.entry).routes) }
    {
        (0..plan.routes() as usize).any(|r| self.holds(plan, r, q))
    }

    // A need is looked at without the points as they lie, so without a whole `Sight`.
    fn can_want(&self, plan: Plan<'_>, occupied: &[bool], need: Need) -> bool
        ensures { result ≡ can_want (plan_of plan.entry) (state_of self.now) (marks occupied.now) need }
    {
        if need.lies(&self.wanted) {
            return true;
        }
        let place = plan.place(need.point) as usize;
        may_turn(
            self.held(plan, need.point),
            mark_at(occupied, place),
            self.lock_of(place),
        )
    }

    fn can_have(&self, plan: Plan<'_>, occupied: &[bool], route: Route<'_>) -> bool
        ensures { result ≡ can_have (plan_of plan.entry) (state_of self.now) (marks occupied.now) (route_of route.entry).needs }
    {
        route
            .needs()
            .all(|need| self.can_want(plan, occupied, need))
    }

    fn can_ask(&self, sight: Sight<'_>, r: usize) -> bool
        ensures { result ≡ does_at sight.entry (state_of self.now) (Ask r) }
    {
        let route = sight.plan.route(r);
        let free = self.all_free(sight.occupied, route.path());
        let had = self.can_have(sight.plan, sight.occupied, route);
        let idle = self.stage_of(r).is_idle();
        may_set(r < sight.plan.routes() as usize, idle, free, had)
    }

    // One lock written; a number that is no section changes nothing.
    fn with_lock(mut self, x: usize, lock: u16) -> Self
        ensures { result ≡ with_lock self x lock }
    {
        if x < 64 {
            self.locks[x] = lock;
        }
        self
    }

    fn lock_path(mut self, path: &[u16], lock: u16) -> Self
        ensures { result ≡ lock_path lock path.now self }
    {
        for x in path {
            self = self.with_lock(*x as usize, lock);
        }
        self
    }

    // One point wanted so; a number that is no point changes nothing.
    fn with_want(mut self, need: Need) -> Self
        ensures { result ≡ with_wanted self (slice_set self.wanted need.point need.left) }
    {
        let q = need.point as usize;
        if q < 32 {
            self.wanted[q] = need.left;
        }
        self
    }

    // Where two needs name one point the first counts, so they are gone through from the last on.
    fn want_all(mut self, route: Route<'_>) -> Self
        ensures { result ≡ with_wanted self (want_all (route_of route.entry).needs self.wanted) }
    {
        for need in route.needs().rev() {
            self = self.with_want(need);
        }
        self
    }

    fn granted(self, plan: Plan<'_>, r: RouteNumber) -> Self
        ensures { state_of result ≡ fitted (done (plan_of plan.entry) (state_of self) (Ask r.number)) }
    {
        let route = plan.route(r.number);
        self.lock_path(route.path(), r.lock())
            .want_all(route)
            .restaged(r, Stage::Set)
    }

    // A route is set, if it may be: its path is locked and its points are wanted.
    pub fn ask(mut self, sight: Sight<'_>, r: usize) -> (Self, Answer)
        ensures { SaysAt sight.entry self (Ask r) result.0 result.1 }
    {
        let done = self.can_ask(sight, r);
        if done {
            self = self.granted(sight.plan, RouteNumber { number: r });
        }
        (self, Request::Ask(r).answered(done))
    }
}
