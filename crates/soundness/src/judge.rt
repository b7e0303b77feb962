// The rules in their order, and the verdict.
ghost use Rattle.std.specs.Prelude.{◌≡◌};
ghost use Rattle.plan.specs.View.{plan_of, route_of};
ghost use Rattle.soundness.specs.Rules.{FirstBroken, Judges};
ghost use Rattle.soundness.specs.Tests.{route_fails, whole_fails};

use crate::{RouteRule, Verdict, WholeRule, rules};
use plan::Refusal;
use plan::route::Route;
use plan::view::Plan;

// The first rule that a route breaks.
fn broken(plan: Plan<'_>, route: Route<'_>) -> Option<RouteRule>
    ensures { result ≡ route_fails (plan_of plan.entry) (route_of route.entry) }
{
    if !rules::begins(plan, route) {
        Some(RouteRule::Begins)
    } else if !rules::goes(route) {
        Some(RouteRule::Goes)
    } else if !rules::differs(route) {
        Some(RouteRule::Differs)
    } else if !rules::agree(route) {
        Some(RouteRule::Agrees)
    } else if !rules::known(route, plan.points()) {
        Some(RouteRule::Knows)
    } else if !rules::hangs(plan, route) {
        Some(RouteRule::Hangs)
    } else if !rules::passes(plan, route) {
        Some(RouteRule::Passes)
    } else if !rules::ends(plan, route) {
        Some(RouteRule::Ends)
    } else if !rules::holds(plan, route) {
        Some(RouteRule::Holds)
    } else {
        None
    }
}

// What the whole plan breaks first, its routes aside.
fn whole(plan: Plan<'_>) -> Verdict
    ensures { result ≡ whole_fails (plan_of plan.entry) }
{
    if !rules::places(plan) {
        Verdict::Whole(WholeRule::Places)
    } else if !rules::clears(plan) {
        Verdict::Whole(WholeRule::Clears)
    } else if !rules::closes(plan) {
        Verdict::Whole(WholeRule::Closes)
    } else {
        Verdict::Sound
    }
}

// What a plan breaks first.
pub fn verdict(plan: Plan<'_>) -> Verdict
    ensures { FirstBroken (plan_of plan.entry) result }
{
    let n = plan.routes();
    for r in 0..n {
        if let Some(rule) = broken(plan, plan.route(usize::from(r))) {
            return Verdict::Route(r, rule);
        }
    }
    whole(plan)
}

// The verdict on the plan that numbers are, or why they are none.
pub fn judge(numbers: &[u16]) -> Result<Verdict, Refusal>
    ensures { Judges numbers.now result }
{
    Ok(verdict(Plan::try_from(numbers)?))
}
