// What a train finds before it: the section beyond, and a route that is open to it. The plan and how points lie are two parameters, and no `Sight`: a train sees what is occupied only where it comes in.
ghost use Rattle.std.specs.Prelude.{◌≡◌, true, not, ◌||◌, length, slice_set};
ghost use Rattle.interlocking.specs.Says.{state_of};
ghost use Rattle.trains.specs.Held.{ahead, opens};
ghost use Rattle.trains.specs.Trains.{may_enter, open_here};
ghost use Rattle.plan.specs.Plan.{beyond, marks};
ghost use Rattle.plan.specs.View.{plan_of, route_of};

use conditions::may_come;
use interlocking::{Interlocking, Stage};
use plan::End;
use plan::read::mark_at;
use plan::route::Route;
use plan::view::Plan;

// What lies beyond an end, its point left or not.
fn ahead(end: End, left: bool) -> u16
    ensures { result ≡ ahead end left }
{
    if end.moves && !left {
        end.on_right
    } else {
        end.on_left
    }
}

// What lies beyond a section's end as the points lie.
pub fn beyond(plan: Plan<'_>, lies: &[bool], up: bool, x: u16) -> u16
    ensures { result ≡ beyond (plan_of plan.entry) (marks lies.now) up x }
{
    let end = plan.end(up, x);
    ahead(end, mark_at(lies, usize::from(end.point)))
}

// Is this route open to a train at x that goes this way?
fn opens(stage: Stage, route: Route<'_>, up: bool, x: u16) -> bool
    ensures { result ≡ opens stage (route_of route.entry) up x }
{
    stage.is_open() & ((route.begin() == x) & (route.up() == up))
}

// Is some route open to it?
pub fn open_here(plan: Plan<'_>, interlocking: &Interlocking, up: bool, x: u16) -> bool
    ensures { result ≡ open_here (plan_of plan.entry) (state_of interlocking.now) up x (length (plan_of plan.entry).routes) }
{
    let n = usize::from(plan.routes());
    (0..n).any(|r| opens(interlocking.stage_of(r), plan.route(r), up, x))
}

// A front passes a signal only if a route is open to it: the condition, by the name that trains have for it.
pub fn may_pass(signal: bool, shown: bool) -> bool
    ensures { result ≡ not signal || shown }
{
    conditions::may_pass(signal, shown)
}

// One more section marked; what is no section changes nothing.
pub fn mark(marks: &mut [bool], x: u16)
    ensures { marks.new ≡ slice_set marks.old x true }
{
    let x = usize::from(x);
    // By index: `get_mut` says nothing of what the slice ends as.
    if x < marks.len() {
        marks[x] = true;
    }
}

// Is it an edge with a signal that way, not locked and not occupied?
pub fn may_enter(
    plan: Plan<'_>,
    interlocking: &Interlocking,
    occupied: &[bool],
    up: bool,
    x: u16,
) -> bool
    ensures { result ≡ may_enter (plan_of plan.entry) (state_of interlocking.now) (marks occupied.now) up x }
{
    let at = usize::from(x);
    may_come(
        plan.edge(x),
        plan.signal(up, x),
        interlocking.lock_of(at),
        mark_at(occupied, at),
    )
}
