// A test for each rule. The plan and the route are two parameters: most rules use one of them, and a struct of both would be made only to be taken apart.
ghost use Rattle.std.specs.Prelude.{◌≡◌, ◌-◌, ◌<◌, true, false, not, ◌&&◌, ◌||◌, ◌∷◌, length, take, ◌==◌, nat_lt};
ghost use Rattle.plan.specs.Plan.{among, needed};
ghost use Rattle.plan.specs.View.{end_of, plan_of, route_of};
ghost use Rattle.soundness.specs.Tests.{agree, all_below, closed, differ, empty, hangs, holds, joins, known, leads_to, needed_so, own, quiet, route_test, shut, whole_test};
ghost use Rattle.soundness.specs.declared.RouteRule.TheVariants.{Begins, Ends, Holds, Passes};
ghost use Rattle.soundness.specs.declared.WholeRule.TheVariants.{Places, Clears, Closes};

use conditions::{has_begin, has_end, is_closed, is_held, is_outside, is_own, leads_on};
use plan::End;
use plan::read::{found, repeated};
use plan::route::Route;
use plan::view::Plan;

// Does it need a point on this side?
pub fn needs_so(route: Route<'_>, q: u16, left: bool) -> bool
    ensures { result ≡ needed_so q left (route_of route.entry).needs }
{
    route
        .needs()
        .any(|need| q == need.point && left == need.left)
}

// Rule 1.
pub fn begins(plan: Plan<'_>, route: Route<'_>) -> bool
    ensures { result ≡ route_test (plan_of plan.entry) (route_of route.entry) Begins }
{
    has_begin(
        route.begin(),
        plan.sections(),
        plan.signal(route.up(), route.begin()),
    )
}

// Rule 2.
pub fn goes(route: Route<'_>) -> bool
    ensures { result ≡ not (empty (route_of route.entry).path) }
{
    !route.path().is_empty()
}

// Are all these sections different?
fn differ(begin: u16, path: &[u16]) -> bool
    ensures { result ≡ differ (begin ∷ path.now) }
{
    !found(path, begin) && repeated(path).is_none()
}

// Rule 3.
pub fn differs(route: Route<'_>) -> bool
    ensures { result ≡ differ ((route_of route.entry).begin ∷ (route_of route.entry).path) }
{
    differ(route.begin(), route.path())
}

// Rule 4.
pub fn agree(route: Route<'_>) -> bool
    ensures { result ≡ agree (route_of route.entry).needs (route_of route.entry).needs }
{
    route
        .needs()
        .all(|need| !needs_so(route, need.point, !need.left))
}

// Rule 5.
pub fn known(route: Route<'_>, points: u16) -> bool
    ensures { result ≡ known points (route_of route.entry).needs }
{
    route.needs().all(|need| need.point < points)
}

// Does an end lead to a section, however the points lie that the route does not need?
fn leads_to(route: Route<'_>, end: End, x: u16) -> bool
    ensures { result ≡ leads_to (route_of route.entry).needs (end_of end) x }
{
    if end.moves {
        leads_on(end.on_left, x, needs_so(route, end.point, false))
            & leads_on(end.on_right, x, needs_so(route, end.point, true))
    } else {
        end.on_left == x
    }
}

// Is the second section there, and do the two hang together?
fn joins(plan: Plan<'_>, route: Route<'_>, a: u16, b: u16) -> bool
    ensures { result ≡ joins (plan_of plan.entry) (route_of route.entry).needs (route_of route.entry).up a b }
{
    let up = route.up();
    (b < plan.sections())
        & (leads_to(route, plan.end(up, a), b) & leads_to(route, plan.end(!up, b), a))
}

// Rule 6.
pub fn hangs(plan: Plan<'_>, route: Route<'_>) -> bool
    ensures { result ≡ hangs (plan_of plan.entry) (route_of route.entry).needs (route_of route.entry).up (route_of route.entry).begin (route_of route.entry).path }
{
    let mut at = route.begin();
    let path = route.path();
    for x in path {
        if !joins(plan, route, at, *x) {
            return false;
        }
        at = *x;
    }
    true
}

// Has none of these sections a signal this way?
fn quiet(plan: Plan<'_>, up: bool, path: &[u16]) -> bool
    ensures { result ≡ quiet (plan_of plan.entry) up path.now }
{
    path.iter().all(|x| !plan.signal(up, *x))
}

// All of a path but its last section.
fn before_last(path: &[u16]) -> &[u16]
    ensures { result.now ≡ take (length path.now - 1) path.now }
{
    &path[0..path.len().saturating_sub(1)]
}

// Rule 7.
pub fn passes(plan: Plan<'_>, route: Route<'_>) -> bool
    ensures { result ≡ route_test (plan_of plan.entry) (route_of route.entry) Passes }
{
    quiet(plan, route.up(), before_last(route.path()))
}

// Rule 8.
pub fn ends(plan: Plan<'_>, route: Route<'_>) -> bool
    ensures { result ≡ route_test (plan_of plan.entry) (route_of route.entry) Ends }
{
    let last = route.last();
    has_end(plan.signal(route.up(), last), plan.edge(last))
}

fn holds_point(plan: Plan<'_>, route: Route<'_>, q: u16) -> bool
    ensures { result ≡ holds (plan_of plan.entry) (route_of route.entry) q }
{
    is_held(found(route.path(), plan.place(q)), route.needs_point(q))
}

// Rule 9.
pub fn holds(plan: Plan<'_>, route: Route<'_>) -> bool
    ensures { result ≡ route_test (plan_of plan.entry) (route_of route.entry) Holds }
{
    (0..plan.points()).all(|q| holds_point(plan, route, q))
}

fn own(plan: Plan<'_>, up: bool, x: u16) -> bool
    ensures { result ≡ own (plan_of plan.entry) up x }
{
    let end = plan.end(up, x);
    is_own(
        end.moves,
        end.point,
        plan.points(),
        plan.place(end.point),
        x,
    )
}

fn all_own(plan: Plan<'_>) -> bool
    ensures { result ≡ all_below (plan_of plan.entry).sections (λ x. own (plan_of plan.entry) true x && own (plan_of plan.entry) false x) }
{
    (0..plan.sections()).all(|x| own(plan, true, x) & own(plan, false, x))
}

fn all_placed(plan: Plan<'_>) -> bool
    ensures { result ≡ all_below (plan_of plan.entry).points (λ q. nat_lt ((plan_of plan.entry).place q) (plan_of plan.entry).sections) }
{
    (0..plan.points()).all(|q| plan.place(q) < plan.sections())
}

// Rule 10.
pub fn places(plan: Plan<'_>) -> bool
    ensures { result ≡ whole_test (plan_of plan.entry) Places }
{
    all_own(plan) & all_placed(plan)
}

// Rule 11.
pub fn clears(plan: Plan<'_>) -> bool
    ensures { result ≡ whole_test (plan_of plan.entry) Clears }
{
    (0..plan.points()).all(|q| !plan.edge(plan.place(q)))
}

// Does outside lie beyond an end, however points lie?
fn closed(end: End, sections: u16) -> bool
    ensures { result ≡ closed sections (end_of end) }
{
    is_outside(sections, end.on_left, end.moves, end.on_right)
}

fn is_shut(plan: Plan<'_>, x: u16, up: bool) -> bool
    ensures { result ≡ shut (plan_of plan.entry) x up }
{
    plan.signal(up, x) | closed(plan.end(up, x), plan.sections())
}

fn closes_at(plan: Plan<'_>, x: u16) -> bool
    ensures { result ≡ (not ((plan_of plan.entry).edge x) || (shut (plan_of plan.entry) x true && shut (plan_of plan.entry) x false)) }
{
    is_closed(
        plan.edge(x),
        is_shut(plan, x, true),
        is_shut(plan, x, false),
    )
}

// Rule 12.
pub fn closes(plan: Plan<'_>) -> bool
    ensures { result ≡ whole_test (plan_of plan.entry) Closes }
{
    (0..plan.sections()).all(|x| closes_at(plan, x))
}
