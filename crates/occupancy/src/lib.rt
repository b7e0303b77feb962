// What the interlocking notes of occupied sections.
#![tactic(auto)]

ghost use Rattle.std.specs.Prelude.{◌≡◌, slice_index};
ghost use Rattle.plan.specs.Plan.{marks};
ghost use Rattle.plan.specs.View.{plan_of, route_of};
ghost use Rattle.interlocking.specs.Says.{state_of};
ghost use Rattle.occupancy.specs.Notes.{entered, entering, noted_mark, notes};

use interlocking::{Interlocking, Stage};
use plan::read::mark_at;
use plan::route::Route;
use plan::view::Plan;
use std::array;

pub mod entry;

// The stage of a route after its first section was looked at.
fn entered(stage: Stage, occupied: bool) -> Stage
    ensures { result ≡ entered occupied stage }
{
    match stage {
        Stage::Shown | Stage::Falling(_) => if occupied { Stage::Used } else { stage },
        _ => stage,
    }
}

// A section that is locked (its lock is not 0) and occupied is passed, and stays so.
fn noted(passed: bool, lock: u16, occupied: bool) -> bool
    ensures { result ≡ noted_mark passed lock occupied }
{
    passed | ((lock != 0) & occupied)
}

// Is the first section of a route occupied?
fn is_entered(route: Route<'_>, occupied: &[bool]) -> bool
    ensures { result ≡ marks occupied.now (slice_index (route_of route.entry).path 0) }
{
    mark_at(occupied, usize::from(route.first()))
}

// A shown or falling route of the plan whose first section is occupied is used.
fn entering(stage: Stage, plan: Plan<'_>, r: usize, occupied: &[bool]) -> Stage
    ensures { result ≡ entering (plan_of plan.entry) (marks occupied.now) r stage }
{
    if r < usize::from(plan.routes()) {
        entered(stage, is_entered(plan.route(r), occupied))
    } else {
        stage
    }
}

// What is reported occupied is noted: routes that are entered, and sections that are passed.
pub fn note(interlocking: Interlocking, plan: Plan<'_>, occupied: &[bool]) -> Interlocking
    ensures { state_of result ≡ notes (plan_of plan.entry) (state_of interlocking) (marks occupied.now) }
{
    let passed = array::from_fn(|x| {
        noted(
            interlocking.is_passed(x),
            interlocking.lock_of(x),
            mark_at(occupied, x),
        )
    });
    let stages = array::from_fn(|r| entering(interlocking.stage_of(r), plan, r, occupied));
    Interlocking {
        passed,
        stages,
        ..interlocking
    }
}
