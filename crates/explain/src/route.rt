// The first fault of a route, for each rule.
// Each rule takes the plan and the route, as in `soundness::rules`: a struct of both would be made only to be taken apart.
ghost use Rattle.std.specs.Prelude.{◌≡◌, true, length, MatchOption};
ghost use Rattle.explain.specs.Faults.{Blames, Finds, Step, Strays};
ghost use Rattle.plan.specs.View.{end_of, plan_of, route_of};
ghost use Rattle.soundness.specs.Tests.{joins, leads_to};
ghost use Rattle.soundness.specs.declared.RouteRule.TheVariants.{Begins, Goes, Differs, Agrees, Knows, Hangs, Passes, Ends, Holds};

use crate::lies::{stray, way};
use crate::{RouteFault, Way};
use plan::read::{found, repeated};
use plan::route::Route;
use plan::view::Plan;
use soundness::rules::needs_so;

// Rule 1: it begins in a section that there is, at a signal that way.
#[tactic(auto, unfolding(soundness::specs::Tests::route_test))]
pub fn begins(plan: Plan<'_>, route: Route<'_>) -> Option<RouteFault>
    ensures { Finds (plan_of plan.entry) (route_of route.entry) Begins result }
{
    let up = route.up();
    let x = route.begin();
    let n = plan.sections();
    if n <= x {
        Some(RouteFault::NoBegin(x, n))
    } else if !plan.signal(up, x) {
        Some(RouteFault::NoSignal(up, x))
    } else {
        None
    }
}

// Rule 2: its path isn't empty.
#[tactic(auto, unfolding(soundness::specs::Tests::route_test, soundness::specs::Tests::empty))]
pub fn goes(plan: Plan<'_>, route: Route<'_>) -> Option<RouteFault>
    ensures { Finds (plan_of plan.entry) (route_of route.entry) Goes result }
{
    if route.path().is_empty() {
        Some(RouteFault::NoPath)
    } else {
        None
    }
}

// Rule 3: the section it begins in and those of its path are all different.
pub fn differs(plan: Plan<'_>, route: Route<'_>) -> Option<RouteFault>
    ensures { Finds (plan_of plan.entry) (route_of route.entry) Differs result }
{
    let begin = route.begin();
    let path = route.path();
    if found(path, begin) {
        return Some(RouteFault::ComesBack(begin));
    }
    repeated(path).map(RouteFault::Twice)
}

// Rule 4: points can lie as it needs.
pub fn agrees(plan: Plan<'_>, route: Route<'_>) -> Option<RouteFault>
    ensures { Finds (plan_of plan.entry) (route_of route.entry) Agrees result }
{
    let need = route
        .needs()
        .find(|need| needs_so(route, need.point, !need.left))?;
    Some(RouteFault::NeedsBoth(need.point))
}

// Rule 5: it needs only points that there are.
pub fn knows(plan: Plan<'_>, route: Route<'_>) -> Option<RouteFault>
    ensures { Finds (plan_of plan.entry) (route_of route.entry) Knows result }
{
    let points = plan.points();
    let need = route.needs().find(|need| points <= need.point)?;
    Some(RouteFault::NoPoint(need.point, points))
}

// Rule 7: no section of its path but the last has a signal that way.
pub fn passes(plan: Plan<'_>, route: Route<'_>) -> Option<RouteFault>
    ensures { Finds (plan_of plan.entry) (route_of route.entry) Passes result }
{
    let up = route.up();
    let path = route.path();
    let inner = &path[0..path.len().saturating_sub(1)];
    let x = inner.iter().copied().find(|x| plan.signal(up, *x))?;
    Some(RouteFault::Signal(up, x))
}

// Rule 8: the last has one, or is an edge.
#[tactic(auto, unfolding(soundness::specs::Tests::route_test))]
pub fn ends(plan: Plan<'_>, route: Route<'_>) -> Option<RouteFault>
    ensures { Finds (plan_of plan.entry) (route_of route.entry) Ends result }
{
    let up = route.up();
    let last = route.last();
    if plan.signal(up, last) | plan.edge(last) {
        None
    } else {
        Some(RouteFault::NoEnd(up, last))
    }
}

// Rule 9: all points with a place in its path are needed.
pub fn holds(plan: Plan<'_>, route: Route<'_>) -> Option<RouteFault>
    ensures { Finds (plan_of plan.entry) (route_of route.entry) Holds result }
{
    let q = (0..plan.points()).find(|q| found(route.path(), plan.place(*q))
        & !route.needs_point(*q))?;
    Some(RouteFault::NotNeeded(q, plan.place(q)))
}

// The way from one section of a path to the next, or back, that leads elsewhere.
fn astray(plan: Plan<'_>, route: Route<'_>, up: bool, a: u16, b: u16) -> Option<Way>
    ensures { MatchOption result (leads_to (route_of route.entry).needs ((plan_of plan.entry).end up a) b ≡ true) (Strays (plan_of plan.entry) (route_of route.entry).needs up a b) }
{
    let lie = stray(route, plan.end(up, a), b)?;
    Some(way(plan, up, a, lie))
}

// What is wrong with the step of a path from one section to the next.
#[tactic(auto, unfolding(soundness::specs::Tests::joins))]
fn step(plan: Plan<'_>, route: Route<'_>, a: u16, b: u16) -> Option<RouteFault>
    requires { Step (route_of route) a b }
    ensures { MatchOption result (joins (plan_of plan.entry) (route_of route.entry).needs (route_of route.entry).up a b ≡ true) (Blames (plan_of plan.entry) (route_of route.entry) Hangs) }
{
    let up = route.up();
    let n = plan.sections();
    if n <= b {
        return Some(RouteFault::NoSection(b, n));
    }
    if let Some(ahead) = astray(plan, route, up, a, b) {
        return Some(RouteFault::Astray(ahead, b));
    }
    astray(plan, route, !up, b, a).map(|back| RouteFault::NoReturn(back, a))
}

// Rule 6: however the others lie, its path hangs together, and its sections are there.
pub fn hangs(plan: Plan<'_>, route: Route<'_>) -> Option<RouteFault>
    ensures { Finds (plan_of plan.entry) (route_of route.entry) Hangs result }
{
    let mut at = route.begin();
    let path = route.path();
    for x in path {
        if let Some(fault) = step(plan, route, at, *x) {
            return Some(fault);
        }
        at = *x;
    }
    None
}
