// A run of events from the empty station, with all that is promised of it.
ghost use Rattle.model.specs.Stations.{station_world};
ghost use Rattle.plan.specs.Plan.{marks};
ghost use Rattle.plan.specs.View.{plan_of};
ghost use Rattle.safety.specs.Promised.{Promised};
ghost use Rattle.std.specs.Prelude.{IfOk};

use model::Event;
use model::run::Outcome;
use plan::view::Plan;
use std::alloc::{AllocError, Global};

// Plays so many of the events as the budget allows, from the empty station with the points lying as given. The answers say which of them were done, the world is the one after these,
// and if the plan is sound every promise holds of it.
pub fn run<'a>(
    heap: Global,
    plan: Plan<'a>,
    lies: [bool; 32],
    events: &[Event],
    budget: usize,
) -> Result<Outcome<'a>, AllocError>
    ensures { IfOk result (λ done. Promised (plan_of plan.entry) (marks lies) events.now budget done.answers.items (station_world done.station)) }
{
    model::run::run(heap, plan, lies, events, budget)
}
