// What can happen in a world.
ghost use Rattle.std.specs.Prelude.{◌≡◌, vec_len};
ghost use Rattle.model.specs.declared.Event.TheVariants.{Comes, Draws, Reverses};
ghost use Rattle.model.specs.Held.{occupied_in, world_of};
ghost use Rattle.trains.specs.Held.{within};
ghost use Rattle.model.specs.World.{can};
ghost use Rattle.plan.specs.Plan.{marks};
ghost use Rattle.plan.specs.View.{plan_of};

use crate::Event;
use crate::world::World;
use plan::view::Plan;
use trains::fleet::occupancy;
use trains::track::may_enter;

impl World {
    // The sections that trains stand in, of 64.
    pub fn occupancy(&self) -> [bool; 64]
        ensures { marks result ≡ within (occupied_in self.now) }
    {
        occupancy(self.trains.as_slice())
    }

    fn can_come(&self, plan: Plan<'_>, i: usize, up: bool, x: usize) -> bool
        ensures { result ≡ can (plan_of plan.entry) (vec_len self.now.trains) (world_of self.now) (Comes i up x) }
    {
        let nowhere = self.trains.get(i).is_some_and(|train| train.is_nowhere());
        if !nowhere || x >= usize::from(plan.sections()) {
            return false;
        }
        let occupied = self.occupancy();
        may_enter(plan, &self.interlocking, &occupied, up, x as u16)
    }

    fn can_draw(&self, plan: Plan<'_>, i: usize) -> bool
        ensures { result ≡ can (plan_of plan.entry) (vec_len self.now.trains) (world_of self.now) (Draws i) }
    {
        self.trains.get(i).is_some_and(|train| !train.is_short())
    }

    fn can_reverse(&self, plan: Plan<'_>, i: usize) -> bool
        ensures { result ≡ can (plan_of plan.entry) (vec_len self.now.trains) (world_of self.now) (Reverses i) }
    {
        match self.trains.get(i) {
            Some(train) => train.may_reverse(plan),
            None => false,
        }
    }

    // Can it happen, trains keeping to signals?
    pub fn can(&self, plan: Plan<'_>, event: Event) -> bool
        ensures { result ≡ can (plan_of plan.entry) (vec_len self.now.trains) (world_of self.now) event }
    {
        match event {
            Event::Asked(_) => true,
            Event::Turns(q) => q < usize::from(plan.points()),
            // By `match`: tried with `is_some_and`, and of a closure that takes the plan along the proof did not close.
            Event::Goes(i) => match self.trains.get(i) {
                Some(train) => train.may_go(plan, &self.interlocking, &self.lies),
                None => false,
            },
            Event::Draws(i) => self.can_draw(plan, i),
            Event::Reverses(i) => self.can_reverse(plan, i),
            Event::Comes(i, up, x) => self.can_come(plan, i, up, x),
            Event::Leaves(i) => match self.trains.get(i) {
                Some(train) => train.may_leave(plan, &self.lies),
                None => false,
            },
        }
    }
}
