// Why a plan has its verdict.
ghost use Rattle.std.specs.Prelude.{◌≡◌, ◌<◌, true, length, MatchOption};
ghost use Rattle.explain.specs.Faults.{Blames, Finds, FindsWhole};
ghost use Rattle.explain.specs.Reasons.{Explained, Explains};
ghost use Rattle.plan.specs.Plan.{route};
ghost use Rattle.plan.specs.View.{plan_of, route_of};
ghost use Rattle.soundness.specs.Tests.{route_test};

use crate::{PlanFault, Reason, RouteFault, numbers, route, whole};
use plan::route::Route;
use plan::view::Plan;
use soundness::judge::verdict;
use soundness::{RouteRule, Verdict, WholeRule};

// The first fault of a route by one rule.
fn route_fault(plan: Plan<'_>, route: Route<'_>, rule: RouteRule) -> Option<RouteFault>
    ensures { Finds (plan_of plan.entry) (route_of route.entry) rule result }
{
    match rule {
        RouteRule::Begins => route::begins(plan, route),
        RouteRule::Goes => route::goes(plan, route),
        RouteRule::Differs => route::differs(plan, route),
        RouteRule::Agrees => route::agrees(plan, route),
        RouteRule::Knows => route::knows(plan, route),
        RouteRule::Hangs => route::hangs(plan, route),
        RouteRule::Passes => route::passes(plan, route),
        RouteRule::Ends => route::ends(plan, route),
        RouteRule::Holds => route::holds(plan, route),
    }
}

// The first fault of the whole plan by one rule.
fn whole_fault(plan: Plan<'_>, rule: WholeRule) -> Option<PlanFault>
    ensures { FindsWhole (plan_of plan.entry) rule result }
{
    match rule {
        WholeRule::Places => whole::places(plan),
        WholeRule::Clears => whole::clears(plan),
        WholeRule::Closes => whole::closes(plan),
    }
}

// Of a route that the plan has.
fn fault_in(plan: Plan<'_>, r: u16, rule: RouteRule) -> Option<RouteFault>
    ensures { MatchOption result (r < length (plan_of plan.entry).routes → route_test (plan_of plan.entry) (route (plan_of plan.entry) r) rule ≡ true) (λ f. (r < length (plan_of plan.entry).routes) × Blames (plan_of plan.entry) (route (plan_of plan.entry) r) rule f) }
{
    if plan.routes() <= r {
        return None;
    }
    route_fault(plan, plan.route(usize::from(r)), rule)
}

// Why a plan has this verdict; nothing if it is sound, or keeps the rule.
pub fn reason(plan: Plan<'_>, verdict: Verdict) -> Option<Reason>
    ensures { Explains plan.entry.numbers.now verdict result }
{
    match verdict {
        Verdict::Sound => None,
        Verdict::Route(r, rule) => fault_in(plan, r, rule).map(|fault| Reason::Route(r, fault)),
        Verdict::Whole(rule) => whole_fault(plan, rule).map(Reason::Whole),
    }
}

// Why numbers are not a sound plan, if they are none.
pub fn explain(numbers: &[u16]) -> Option<Reason>
    ensures { Explained numbers.now result }
{
    match Plan::try_from(numbers) {
        Ok(plan) => judged(plan),
        Err(refusal) => Some(Reason::Numbers(numbers::fault(numbers, refusal))),
    }
}

fn judged(plan: Plan<'_>) -> Option<Reason>
    ensures { Explained plan.entry.numbers.now result }
{
    reason(plan, verdict(plan))
}
