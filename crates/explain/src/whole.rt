// The first fault of the whole plan, for each rule.
// That a section is there stands in three contracts: a type for it would hold the plan, and be made anew for each number of a range.
ghost use Rattle.std.specs.Prelude.{◌≡◌, ◌<◌, true, false, not, ◌&&◌, ◌||◌, MatchOption, nat_lt};
ghost use Rattle.explain.specs.Faults.{BlamesWhole, FindsWhole};
ghost use Rattle.plan.specs.View.{plan_of};
ghost use Rattle.soundness.specs.Tests.{all_below, own, shut};
ghost use Rattle.soundness.specs.declared.WholeRule.TheVariants.{Places, Clears, Closes};

use crate::PlanFault;
use crate::lies::{open, way};
use plan::view::Plan;

// An end that is moved by a point that is not there, or has its place elsewhere.
#[tactic(auto, unfolding(soundness::specs::Tests::own))]
fn foreign(plan: Plan<'_>, up: bool, x: u16) -> Option<PlanFault>
    requires { x < (plan_of plan).sections }
    ensures { MatchOption result (own (plan_of plan.entry) up x ≡ true) (BlamesWhole (plan_of plan.entry) Places) }
{
    let end = plan.end(up, x);
    let n = plan.points();
    let place = plan.place(end.point);
    if !end.moves {
        None
    } else if n <= end.point {
        Some(PlanFault::Missing(up, x, end.point, n))
    } else if place != x {
        Some(PlanFault::Elsewhere(up, x, end.point, place))
    } else {
        None
    }
}

// The same of either end of a section.
// A `match` here and below, so that nothing is looked for behind the first fault: the check knows nothing of what a closure for `or_else` gives.
fn foreign_at(plan: Plan<'_>, x: u16) -> Option<PlanFault>
    requires { x < (plan_of plan).sections }
    ensures { MatchOption result ((own (plan_of plan.entry) true x && own (plan_of plan.entry) false x) ≡ true) (BlamesWhole (plan_of plan.entry) Places) }
{
    match foreign(plan, true, x) {
        Some(fault) => Some(fault),
        None => foreign(plan, false, x),
    }
}

fn all_own(plan: Plan<'_>) -> Option<PlanFault>
    ensures { MatchOption result (all_below (plan_of plan.entry).sections (λ x. own (plan_of plan.entry) true x && own (plan_of plan.entry) false x) ≡ true) (BlamesWhole (plan_of plan.entry) Places) }
{
    (0..plan.sections()).find_map(|x| foreign_at(plan, x))
}

fn all_placed(plan: Plan<'_>) -> Option<PlanFault>
    ensures { MatchOption result (all_below (plan_of plan.entry).points (λ q. nat_lt ((plan_of plan.entry).place q) (plan_of plan.entry).sections) ≡ true) (BlamesWhole (plan_of plan.entry) Places) }
{
    let n = plan.sections();
    let q = (0..plan.points()).find(|q| n <= plan.place(*q))?;
    Some(PlanFault::NoPlace(q, plan.place(q), n))
}

// Rule 10: a point that moves what is beyond an end is there, and has its place in that section; and every place is a section.
#[tactic(auto, unfolding(soundness::specs::Tests::whole_test))]
pub fn places(plan: Plan<'_>) -> Option<PlanFault>
    ensures { FindsWhole (plan_of plan.entry) Places result }
{
    match all_own(plan) {
        Some(fault) => Some(fault),
        None => all_placed(plan),
    }
}

// Rule 11: no point has its place in an edge.
pub fn clears(plan: Plan<'_>) -> Option<PlanFault>
    ensures { FindsWhole (plan_of plan.entry) Clears result }
{
    let q = (0..plan.points()).find(|q| plan.edge(plan.place(*q)))?;
    Some(PlanFault::InEdge(q, plan.place(q)))
}

// An end of an edge with no signal, and a section beyond it.
#[tactic(auto, unfolding(soundness::specs::Tests::shut))]
fn open_end(plan: Plan<'_>, x: u16, up: bool) -> Option<PlanFault>
    requires { (x < (plan_of plan).sections) × ((plan_of plan).edge x ≡ true) }
    ensures { MatchOption result (shut (plan_of plan.entry) x up ≡ true) (BlamesWhole (plan_of plan.entry) Closes) }
{
    if plan.signal(up, x) {
        return None;
    }
    let lie = open(plan.end(up, x), plan.sections())?;
    Some(PlanFault::Open(way(plan, up, x, lie)))
}

// The same of either end of a section that is an edge.
fn open_at(plan: Plan<'_>, x: u16) -> Option<PlanFault>
    requires { x < (plan_of plan).sections }
    ensures { MatchOption result ((not ((plan_of plan.entry).edge x) || (shut (plan_of plan.entry) x true && shut (plan_of plan.entry) x false)) ≡ true) (BlamesWhole (plan_of plan.entry) Closes) }
{
    if !plan.edge(x) {
        return None;
    }
    match open_end(plan, x, true) {
        Some(fault) => Some(fault),
        None => open_end(plan, x, false),
    }
}

// Rule 12: each end of an edge has a signal that way or, however points lie, outside beyond it.
pub fn closes(plan: Plan<'_>) -> Option<PlanFault>
    ensures { FindsWhole (plan_of plan.entry) Closes result }
{
    (0..plan.sections()).find_map(|x| open_at(plan, x))
}
