// A signal is cleared.
ghost use Rattle.std.specs.Prelude.{◌≡◌};
ghost use Rattle.interlocking.specs.Says.{does_at, SaysAt, state_of};
ghost use Rattle.interlocking.specs.declared.Request.TheVariants.{Clear};

use crate::{Answer, Interlocking, Request, RouteNumber, Sight, Stage};
use conditions::may_show;

impl Interlocking {
    fn can_clear(&self, sight: Sight<'_>, r: usize) -> bool
        ensures { result ≡ does_at sight.entry (state_of self.now) (Clear r) }
    {
        let route = sight.plan.route(r);
        let lie = route.met(sight.lies);
        let wanted = route.met(&self.wanted);
        let set = self.stage_of(r).is_set();
        may_show(r < sight.plan.routes() as usize, set, lie, wanted)
    }

    // A route is shown, if it may be.
    pub fn clear(mut self, sight: Sight<'_>, r: usize) -> (Self, Answer)
        ensures { SaysAt sight.entry self (Clear r) result.0 result.1 }
    {
        let done = self.can_clear(sight, r);
        if done {
            self = self.restaged(RouteNumber { number: r }, Stage::Shown);
        }
        (self, Request::Clear(r).answered(done))
    }
}
