// Time passes: what falls falls by one, and what has fallen is let go.
ghost use Rattle.std.specs.Prelude.{◌≡◌, ◌≤◌, slice_index_or};
ghost use Rattle.interlocking.specs.Says.{SaysAt, state_of};
ghost use Rattle.interlocking.specs.State.{all_fall, fallen};
ghost use Rattle.interlocking.specs.declared.Request.TheVariants.{Tick};
ghost use Rattle.interlocking.specs.declared.Stage.TheVariants.{Idle};

use crate::{Answer, Interlocking, Request, RouteNumber, Sight, Stage};

impl Interlocking {
    // A falling route has one less left; one that has none is let go.
    fn fallen(self, r: RouteNumber) -> Self
        ensures { state_of result ≡ fallen (state_of self) r.number (slice_index_or self.stages r.number Idle) }
    {
        match self.stages[r.number] {
            Stage::Falling(n) => {
                if n == 0 {
                    self.let_go(r)
                } else {
                    self.restaged(r, Stage::Falling(n - 1))
                }
            }
            _ => self,
        }
    }

    fn all_fall(mut self, routes: usize) -> Self
        requires { routes ≤ 64 }
        ensures { state_of result ≡ all_fall routes (state_of self) }
    {
        // No `fold`: its closure has to hand on what doesn't fall too, which the loop leaves as it is.
        for r in 0..routes {
            if self.stages[r].is_falling() {
                self = self.fallen(RouteNumber { number: r });
            }
        }
        self
    }

    // All routes that the plan has fall.
    pub fn tick(self, sight: Sight<'_>) -> (Self, Answer)
        ensures { SaysAt sight.entry self Tick result.0 result.1 }
    {
        let left = self.all_fall(sight.plan.routes() as usize);
        (left, Request::Tick.answered(true))
    }
}
