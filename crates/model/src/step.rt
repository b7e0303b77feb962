// One event in a world. That its train is there was tested before, in `step`: each move asks it of its own number, which no type could say without the world.
ghost use Rattle.std.specs.Prelude.{◌≡◌, ◌<◌, true, vec_len, MatchResult};
ghost use Rattle.trains.specs.Trains.{empty};
ghost use Rattle.trains.specs.Held.{trains_of};
ghost use Rattle.model.specs.declared.Event.TheVariants.{Asked, Comes, Draws, Goes, Leaves, Reverses, Turns};
ghost use Rattle.model.specs.Steps.{happens, Makes, Noted, Steps, Told};
ghost use Rattle.model.specs.World.{can, next};
ghost use Rattle.plan.specs.View.{plan_of};
ghost use Rattle.model.specs.Held.{world_of};

use crate::Event;
use crate::world::World;
use conditions::turned;
use interlocking::{Request, Sight};
use occupancy::note;
use plan::view::Plan;
use std::alloc::AllocError;

impl World {
    // The interlocking notes what is occupied.
    fn note(&mut self, plan: Plan<'_>)
        ensures { Noted (plan_of plan.entry) self.old self.new }
    {
        let occupied = self.occupancy();
        let left = note(self.interlocking, plan, &occupied);
        self.interlocking = left;
    }

    fn asked(&mut self, plan: Plan<'_>, request: Request) -> bool
        ensures { Told (plan_of plan.entry) (vec_len self.old.trains) (world_of self.old) (world_of self.new) (Asked request) result }
    {
        let occupied = self.occupancy();
        let lies = self.lies;
        let sight = Sight {
            plan,
            occupied: &occupied,
            lies: &lies,
        };
        let (left, answer) = self.interlocking.perform(sight, request);
        self.interlocking = left;
        answer.done
    }

    // Would the interlocking grant it?
    fn would_grant(&self, plan: Plan<'_>, request: Request) -> bool
        ensures { result ≡ happens (plan_of plan.entry) (vec_len self.now.trains) (world_of self.now) (Asked request) }
    {
        let occupied = self.occupancy();
        let sight = Sight {
            plan,
            occupied: &occupied,
            lies: &self.lies,
        };
        let (_, answer) = self.interlocking.perform(sight, request);
        answer.done
    }

    fn turns(&mut self, q: usize)
        requires { q < 32 }
        ensures { Makes self.old self.new (Turns q) }
    {
        let wanted = self.interlocking.wants_left(q);
        self.lies[q] = turned(wanted, self.lies[q]);
    }

    fn goes(&mut self, plan: Plan<'_>, i: usize) -> Result<(), AllocError>
        requires { can (plan_of plan) (vec_len self.old.trains) (world_of self.old) (Goes i) ≡ true }
        ensures { MatchResult result (λ _. world_of self.new ≡ next (plan_of plan.entry) (vec_len self.old.trains) (world_of self.old) (Goes i)) (λ _. world_of self.new ≡ world_of self.old) }
    {
        let x = self.trains[i].ahead(plan, &self.lies);
        self.trains[i].goes(x)?;
        self.note(plan);
        Ok(())
    }

    fn draws(&mut self, plan: Plan<'_>, i: usize)
        requires { i < vec_len self.old.trains }
        ensures { world_of self.new ≡ next (plan_of plan.entry) (vec_len self.old.trains) (world_of self.old) (Draws i) }
    {
        self.trains[i].draws();
        self.note(plan);
    }

    fn reverses(&mut self, i: usize)
        requires { i < vec_len self.old.trains }
        ensures { Makes self.old self.new (Reverses i) }
    {
        self.trains[i].reverses();
    }

    fn comes(&mut self, i: usize, up: bool, x: usize) -> Result<(), AllocError>
        requires train { i < vec_len self.old.trains }
        requires nowhere { empty (trains_of self.old.trains.items i).body ≡ true }
        requires section { x < 64 }
        ensures { MatchResult result (λ _. Makes self.old self.new (Comes i up x)) (λ _. world_of self.new ≡ world_of self.old) }
    {
        self.trains[i].comes(up, x as u16)
    }

    fn leaves(&mut self, i: usize)
        requires { i < vec_len self.old.trains }
        ensures { Makes self.old self.new (Leaves i) }
    {
        self.trains[i].leaves();
    }

    // Would an event be done?
    pub(crate) fn would(&self, plan: Plan<'_>, event: Event) -> bool
        ensures { result ≡ happens (plan_of plan.entry) (vec_len self.now.trains) (world_of self.now) event }
    {
        match event {
            Event::Asked(request) => self.would_grant(plan, request),
            _ => self.can(plan, event),
        }
    }

    // One event: whether it was done.
    pub(crate) fn step(&mut self, plan: Plan<'_>, event: Event) -> Result<bool, AllocError>
        ensures { Steps (plan_of plan.entry) self.old self.new event result }
    {
        if !self.can(plan, event) {
            return Ok(false);
        }
        match event {
            Event::Asked(request) => return Ok(self.asked(plan, request)),
            Event::Turns(q) => self.turns(q),
            Event::Goes(i) => self.goes(plan, i)?,
            Event::Draws(i) => self.draws(plan, i),
            Event::Reverses(i) => self.reverses(i),
            Event::Comes(i, up, x) => self.comes(i, up, x)?,
            Event::Leaves(i) => self.leaves(i),
        }
        Ok(true)
    }
}
