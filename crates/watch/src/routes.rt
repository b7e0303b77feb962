// What is promised of routes, locks and marks.
ghost use Rattle.std.specs.Prelude.{◌≡◌, ℕ, ◌<◌, true, false, length, MatchOption, ◌≢◌};
ghost use Rattle.interlocking.specs.State.{does, is_open};
ghost use Rattle.interlocking.specs.declared.Request.TheVariants.{Back};
ghost use Rattle.occupancy.specs.Notes.{notes};
ghost use Rattle.plan.specs.Plan.{among, met};
ghost use Rattle.plan.specs.View.{route_of};
ghost use Rattle.watch.specs.Broken.{FallsSoonAt, LetsGoAt, LiesWrong, NoOrphanAt, ShownRight, WantedAt};
ghost use Rattle.watch.specs.Scene.{Looked, lies_in, occupied_in, plan_in, state_in};

use crate::Broken;
use crate::scene::Scene;
use interlocking::{Sight, Stage};
use plan::read::mark_at;
use plan::route::Route;

impl Scene<'_> {
    // The first section of a path that has another lock.
    fn unlocked(&self, path: &[u16], lock: usize) -> Option<u16>
        ensures { MatchOption result ((x : ℕ) → among x path.now ≡ true → (state_in self.now).lock x ≡ lock) (λ x. (among x path.now ≡ true) × ((state_in self.now).lock x ≢ lock)) }
    {
        path.iter().copied().find(|x| usize::from(self.interlocking.lock_of(usize::from(*x)))
            != lock)
    }

    // The first section of a path that is occupied.
    fn occupied_in(&self, path: &[u16]) -> Option<u16>
        ensures { MatchOption result ((x : ℕ) → among x path.now ≡ true → occupied_in self.now x ≡ false) (λ x. (among x path.now ≡ true) × (occupied_in self.now x ≡ true)) }
    {
        path.iter()
            .copied()
            .find(|x| mark_at(&self.occupied, usize::from(*x)))
    }

    // The first point that lies otherwise than a route needs it.
    fn unmet(&self, route: Route<'_>) -> Option<u16>
        ensures { MatchOption result (met (lies_in self.now) (route_of route.entry).needs ≡ true) (LiesWrong (lies_in self.now) (route_of route.entry).needs) }
    {
        let need = route.needs().find(|need| !need.lies(&self.lies))?;
        Some(need.point)
    }

    // What is not as it should be while a route may be entered.
    // Early returns, since with `map` and `or_else` the proof did not close.
    fn shown_wrong(&self, r: usize) -> Option<Broken>
        requires there { r < length (plan_in self.now).routes }
        requires small { r < 65536 }
        ensures { Looked self.now result (is_open ((state_in self.now).stage r) ≡ true → ShownRight (plan_in self.now) (state_in self.now) (lies_in self.now) (occupied_in self.now) r) }
    {
        if !self.interlocking.stage_of(r).is_open() {
            return None;
        }
        let route = self.plan.route(r);
        let path = route.path();
        if let Some(x) = self.unlocked(path, r + 1) {
            return Some(Broken::Unlocked(r, x));
        }
        if let Some(x) = self.occupied_in(path) {
            return Some(Broken::Occupied(r, x));
        }
        self.unmet(route).map(|q| Broken::Unmet(r, q))
    }

    // While a signal may be passed, the path is locked for its route and vacant, and its points lie as they should.
    pub(crate) fn shown(&self) -> Option<Broken>
        ensures { Looked self.now result ((r : ℕ) → r < length (plan_in self.now).routes → is_open ((state_in self.now).stage r) ≡ true → ShownRight (plan_in self.now) (state_in self.now) (lies_in self.now) (occupied_in self.now) r) }
    {
        (0..usize::from(self.plan.routes())).find_map(|r| self.shown_wrong(r))
    }

    // A section that is locked for an idle route.
    fn orphan(&self, x: u16) -> Option<Broken>
        ensures { Looked self.now result (NoOrphanAt (state_in self.now) x) }
    {
        let lock = self.interlocking.lock_of(usize::from(x));
        if lock == 0 {
            return None;
        }
        let r = usize::from(lock - 1);
        self.interlocking
            .stage_of(r)
            .is_idle()
            .then_some(Broken::Orphan(x, r))
    }

    // An idle route holds no lock.
    pub(crate) fn no_orphan(&self) -> Option<Broken>
        ensures { Looked self.now result ((x : ℕ) → x < 64 → NoOrphanAt (state_in self.now) x) }
    {
        (0..64).find_map(|x| self.orphan(x))
    }

    // A route that falls with more than the plan's time left.
    fn late(&self, r: usize) -> Option<Broken>
        ensures { Looked self.now result (FallsSoonAt (plan_in self.now) (state_in self.now) r) }
    {
        match self.interlocking.stage_of(r) {
            Stage::Falling(m) if m > self.plan.time() => Some(Broken::Late(r, m)),
            _ => None,
        }
    }

    // A route that is taken back has at most the plan's time left.
    pub(crate) fn falls_soon(&self) -> Option<Broken>
        ensures { Looked self.now result ((r : ℕ) → r < 64 → FallsSoonAt (plan_in self.now) (state_in self.now) r) }
    {
        (0..64).find_map(|r| self.late(r))
    }

    // A route that was entered and is not used.
    fn unentered(&self, r: usize) -> Option<Broken>
        requires { r < length (plan_in self.now).routes }
        ensures { Looked self.now result ((notes (plan_in self.now) (state_in self.now) (occupied_in self.now)).stage r ≡ (state_in self.now).stage r) }
    {
        if !self.interlocking.stage_of(r).is_open() {
            return None;
        }
        mark_at(&self.occupied, usize::from(self.plan.route(r).first())).then_some(
            Broken::Unentered(r),
        )
    }

    // Every route that was entered is used.
    pub(crate) fn entered(&self) -> Option<Broken>
        ensures { Looked self.now result ((r : ℕ) → r < length (plan_in self.now).routes → (notes (plan_in self.now) (state_in self.now) (occupied_in self.now)).stage r ≡ (state_in self.now).stage r) }
    {
        (0..usize::from(self.plan.routes())).find_map(|r| self.unentered(r))
    }

    // A section that is locked and occupied, and not passed.
    fn unpassed(&self, x: u16) -> Option<Broken>
        ensures { Looked self.now result ((notes (plan_in self.now) (state_in self.now) (occupied_in self.now)).passed x ≡ (state_in self.now).passed x) }
    {
        let at = usize::from(x);
        if self.interlocking.lock_of(at) == 0 {
            return None;
        }
        (mark_at(&self.occupied, at) & !self.interlocking.is_passed(at)).then_some(Broken::Unpassed(
            x,
        ))
    }

    // Every section that is locked and occupied is passed.
    pub(crate) fn passed(&self) -> Option<Broken>
        ensures { Looked self.now result ((x : ℕ) → x < 64 → (notes (plan_in self.now) (state_in self.now) (occupied_in self.now)).passed x ≡ (state_in self.now).passed x) }
    {
        (0..64).find_map(|x| self.unpassed(x))
    }

    // A set route that needs a point otherwise than it is wanted.
    fn unwanted(&self, r: usize) -> Option<Broken>
        ensures { Looked self.now result (WantedAt (plan_in self.now) (state_in self.now) r) }
    {
        if !self.interlocking.stage_of(r).is_set() {
            return None;
        }
        (!self.plan.route(r).met(&self.interlocking.wanted)).then_some(Broken::Unwanted(r))
    }

    // A set route can be shown once its points have turned.
    pub(crate) fn wanted(&self) -> Option<Broken>
        ensures { Looked self.now result ((r : ℕ) → r < 64 → WantedAt (plan_in self.now) (state_in self.now) r) }
    {
        (0..64).find_map(|r| self.unwanted(r))
    }

    // Can a route be taken back? Not in `kept`, which is asked of each route: what this needs room for is laid out only where one is used.
    fn goes_back(&self, r: usize) -> bool
        ensures { result ≡ does (plan_in self.now) (state_in self.now) (occupied_in self.now) (lies_in self.now) (Back r) }
    {
        let sight = Sight {
            plan: self.plan,
            occupied: &self.occupied,
            lies: &self.lies,
        };
        let (_, answer) = self.interlocking.back(sight, r);
        answer.done
    }

    // A used route with no train in its path that can't be taken back.
    fn kept(&self, r: usize) -> Option<Broken>
        ensures { Looked self.now result (LetsGoAt (plan_in self.now) (state_in self.now) (lies_in self.now) (occupied_in self.now) r) }
    {
        if !self.interlocking.stage_of(r).is_used() {
            return None;
        }
        if self.occupied_in(self.plan.route(r).path()).is_some() {
            return None;
        }
        (!self.goes_back(r)).then_some(Broken::Kept(r))
    }

    // A used route with no train in its path can be taken back.
    pub(crate) fn lets_go(&self) -> Option<Broken>
        ensures { Looked self.now result ((r : ℕ) → r < 64 → LetsGoAt (plan_in self.now) (state_in self.now) (lies_in self.now) (occupied_in self.now) r) }
    {
        (0..64).find_map(|r| self.kept(r))
    }
}
