// What lies beyond an end, with the point that moves it on one side.
ghost use Rattle.std.specs.Prelude.{◌≡◌, true, MatchOption};
ghost use Rattle.explain.specs.Faults.{ElsewhereSo, OpenSo, leg, way_of};
ghost use Rattle.plan.specs.View.{end_of, plan_of, route_of};
ghost use Rattle.soundness.specs.Tests.{closed, leads_to};

use crate::{Lie, Way};
use plan::End;
use plan::route::Route;
use plan::view::Plan;
use soundness::rules::needs_so;

fn leg(end: End, lie: Lie) -> u16
    ensures { result ≡ leg (end_of end) lie }
{
    match lie {
        Lie::Fixed | Lie::Left(_) => end.on_left,
        Lie::Right(_) => end.on_right,
    }
}

// The way beyond an end, with its point so.
pub fn way(plan: Plan<'_>, up: bool, from: u16, lie: Lie) -> Way
    ensures { result ≡ way_of (plan_of plan.entry) up from lie }
{
    let beyond = leg(plan.end(up, from), lie);
    let outside = plan.sections() <= beyond;
    Way {
        up,
        from,
        lie,
        beyond,
        outside,
    }
}

// A side that a route does not rule out, with which an end does not lead to a section.
#[tactic(auto, unfolding(soundness::specs::Tests::leads_to))]
pub fn stray(route: Route<'_>, end: End, x: u16) -> Option<Lie>
    ensures { MatchOption result (leads_to (route_of route.entry).needs (end_of end) x ≡ true) (ElsewhereSo (route_of route.entry).needs (end_of end) x) }
{
    if !end.moves {
        if end.on_left == x {
            None
        } else {
            Some(Lie::Fixed)
        }
    } else if !((end.on_left == x) | needs_so(route, end.point, false)) {
        Some(Lie::Left(end.point))
    } else if !((end.on_right == x) | needs_so(route, end.point, true)) {
        Some(Lie::Right(end.point))
    } else {
        None
    }
}

// A side with which an end leads to a section.
#[tactic(auto, unfolding(soundness::specs::Tests::closed))]
pub fn open(end: End, sections: u16) -> Option<Lie>
    ensures { MatchOption result (closed sections (end_of end) ≡ true) (OpenSo sections (end_of end)) }
{
    if !end.moves {
        if end.on_left < sections {
            Some(Lie::Fixed)
        } else {
            None
        }
    } else if end.on_left < sections {
        Some(Lie::Left(end.point))
    } else if end.on_right < sections {
        Some(Lie::Right(end.point))
    } else {
        None
    }
}
