// What each signal shows and what each point is told, from the interlocking and nothing else.
#![tactic(auto)]

ghost use Rattle.std.specs.Prelude.{◌≡◌, IfOk};
ghost use Rattle.std.specs.Option.{option_to_list};
ghost use Rattle.field.specs.Field.{aspect_of, clears, is_shown, orders_of, ShowsExactly, shows, signal_order};
ghost use Rattle.interlocking.specs.Says.{state_of};
ghost use Rattle.plan.specs.View.{plan_of};

use interlocking::{Interlocking, Stage};
use plan::view::Plan;
use std::alloc::{AllocError, Global};

#[derive(Clone, Copy, Debug, PartialEq, Eq)]
pub enum Aspect {
    Stop,
    Proceed,
}

// What a device on the line is told.
#[derive(Clone, Copy, Debug, PartialEq, Eq)]
pub enum Order {
    Signal {
        section: u16,
        up: bool,
        aspect: Aspect,
    },
    Point {
        point: u16,
        left: bool,
    },
}

fn is_shown(stage: Stage) -> bool
    ensures { result ≡ is_shown stage }
{
    matches!(stage, Stage::Shown)
}

// A plan and what is set in its station: all that the signals and the points go by.
#[derive(Clone, Copy)]
pub struct Field<'a, 'b> {
    pub plan: Plan<'a>,
    pub interlocking: &'b Interlocking,
}

// A point is told where it is wanted: left or not. `wants_left` says the same of what is set; this says it of the order, as `aspect_at` of a signal's.
pub fn told(interlocking: &Interlocking, q: usize) -> bool
    ensures { result ≡ (state_of interlocking.now).wanted q }
{
    interlocking.wants_left(q)
}

impl<'a, 'b> Field<'a, 'b> {
    // A shown route clears the signal that it begins at; a falling one does not, though a train too near may still pass.
    #[tactic(auto, using(plan::proofs::Sides::same_is))]
    fn clears(self, up: bool, x: usize, r: usize) -> bool
        ensures { result ≡ clears (plan_of self.entry.plan) (state_of self.entry.interlocking.now) up x r }
    {
        let route = self.plan.route(r);
        is_shown(self.interlocking.stage_of(r))
            && usize::from(route.begin()) == x
            && route.up() == up
    }

    fn shows(self, up: bool, x: usize) -> bool
        ensures { result ≡ shows (plan_of self.entry.plan) (state_of self.entry.interlocking.now) up x }
    {
        let routes = usize::from(self.plan.routes());
        (0..routes).any(|r| self.clears(up, x, r))
    }

    // Proceed exactly if a route of the plan that begins there is shown.
    pub fn aspect_at(self, up: bool, x: usize) -> Aspect
        ensures { result ≡ aspect_of (shows (plan_of self.entry.plan) (state_of self.entry.interlocking.now) up x) }
    {
        if self.shows(up, x) {
            Aspect::Proceed
        } else {
            Aspect::Stop
        }
    }

    // The order for a signal, if there is one.
    fn signal_order(self, up: bool, section: u16) -> Option<Order>
        ensures { option_to_list result ≡ signal_order (plan_of self.entry.plan) (state_of self.entry.interlocking.now) up section }
    {
        if self.plan.signal(up, section) {
            let aspect = self.aspect_at(up, usize::from(section));
            Some(Order::Signal {
                section,
                up,
                aspect,
            })
        } else {
            None
        }
    }

    // For each section from 0 on its signal up and then its signal down, as far as it has them, and then each point from 0 on.
    pub fn orders(self, heap: Global) -> Result<Vec<Order>, AllocError>
        ensures { IfOk result (λ v. v.items ≡ orders_of (plan_of self.entry.plan) (state_of self.entry.interlocking.now)) }
    {
        let mut orders = Vec::new(heap);
        for x in 0..self.plan.sections() {
            orders.extend(self.signal_order(true, x))?;
            orders.extend(self.signal_order(false, x))?;
        }
        for point in 0..self.plan.points() {
            let left = told(self.interlocking, usize::from(point));
            orders.push(Order::Point { point, left })?;
        }
        Ok(orders)
    }
}

// Proceed is shown exactly where a route begins that is shown.
pub fn shows_exactly()
    ensures { ShowsExactly }
{}

#[cfg(test)]
mod tests {
    use super::*;
    use std::test::Fail;

    // One section, with a signal up and no route.
    const NUMBERS: [u16; 15] = [1, 0, 2, 0, 0, 0, 1, 1, 0, 0, 1, 1, 1, 0, 1];

    #[test]
    fn a_signal_that_no_route_clears_stops(rt: HostRuntime) -> Result<(), Fail> {
        let interlocking = Interlocking::at_rest();
        let field = Field {
            plan: Plan::try_from(NUMBERS.as_slice()).expect(&rt, "a plan"),
            interlocking: &interlocking,
        };
        let orders = field.orders(rt.alloc())?;
        let stop = Order::Signal {
            section: 0,
            up: true,
            aspect: Aspect::Stop,
        };
        assert!(rt; orders.as_slice() == [stop].as_slice());
        Ok(())
    }
}
