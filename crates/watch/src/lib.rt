// The promises looked at in a station's world, whatever is proved of it: the first that does not hold, and where.
#![tactic(auto)]

ghost use Rattle.model.specs.Stations.{station_plan, station_world};
ghost use Rattle.std.specs.Option.{MatchOption};
ghost use Rattle.watch.specs.Broken.{Fine, Held, Placed, Violated};
ghost use Rattle.watch.specs.Scene.{Looked, lies_in, occupied_in, plan_in, state_in, trains_in};

use crate::scene::Scene;
use model::station::Station;
use plan::side;
use std::fmt;

mod fleet;
mod routes;
mod scene;

// What does not hold. Trains and routes, sections and points go by their numbers.
#[derive(Clone, Copy, Debug, PartialEq, Eq)]
pub enum Broken {
    // A section with two trains.
    Together(u16, usize, usize),
    // A train, and two of its sections, the one behind first, that do not hang together.
    Torn(usize, u16, u16),
    // A point that lies left or not under a train, and is wanted otherwise: the point, its section, the train.
    Moved(u16, u16, usize, bool),
    // A route that may be entered, and a section of its path that is not locked for it.
    Unlocked(usize, u16),
    // The same, and a section that is occupied.
    Occupied(usize, u16),
    // The same, and a point that lies otherwise than needed.
    Unmet(usize, u16),
    // A train with no signal before it, and the occupied section before it.
    Blocked(usize, u16),
    // A section that is locked for an idle route.
    Orphan(u16, usize),
    // A train, and a section that it has twice.
    Twice(usize, u16),
    // A route that falls, and the time that it has left, more than the plan's.
    Late(usize, u16),
    // A route that was entered and is not used.
    Unentered(usize),
    // A section that is locked and occupied, and not passed.
    Unpassed(u16),
    // A set route that can't come to be shown: a point that it needs is wanted otherwise.
    Unwanted(usize),
    // A used route with no train in its path that can't be taken back.
    Kept(usize),
}

impl Scene<'_> {
    // Where trains stand, and what may be entered.
    // Early returns here and below, so that nothing is looked at behind what is broken: of a closure for `or_else` the check knows nothing.
    fn misplaced(&self) -> Option<Broken>
        ensures { Looked self.now result (Placed (plan_in self.now) (state_in self.now) (lies_in self.now) (occupied_in self.now) (trains_in self.now)) }
    {
        if let Some(broken) = self.apart() {
            return Some(broken);
        }
        if let Some(broken) = self.standing() {
            return Some(broken);
        }
        if let Some(broken) = self.still() {
            return Some(broken);
        }
        if let Some(broken) = self.shown() {
            return Some(broken);
        }
        self.way_before()
    }

    // What is locked, passed, wanted and left.
    fn misheld(&self) -> Option<Broken>
        ensures { Looked self.now result (Held (plan_in self.now) (state_in self.now) (lies_in self.now) (occupied_in self.now) (trains_in self.now)) }
    {
        if let Some(broken) = self.no_orphan() {
            return Some(broken);
        }
        if let Some(broken) = self.each_once() {
            return Some(broken);
        }
        if let Some(broken) = self.falls_soon() {
            return Some(broken);
        }
        if let Some(broken) = self.entered() {
            return Some(broken);
        }
        if let Some(broken) = self.passed() {
            return Some(broken);
        }
        if let Some(broken) = self.wanted() {
            return Some(broken);
        }
        self.lets_go()
    }
}

// The first promise that does not hold.
pub fn first_broken(station: &Station<'_>) -> Option<Broken>
    ensures { MatchOption result (Fine (station_plan station.now) (station_world station.now)) (λ b. Violated (station_plan station.now) (station_world station.now) b) }
{
    let scene = Scene::new(station);
    if let Some(broken) = scene.misplaced() {
        return Some(broken);
    }
    scene.misheld()
}

// One sentence for people.
impl fmt::Display for Broken {
    fn fmt<W: fmt::Write>(&self, f: &mut fmt::Formatter<W>) -> fmt::Result {
        match *self {
            Broken::Together(x, i, j) => write!(f, "section {x} has two trains, {i} and {j}"),
            Broken::Torn(i, behind, before) => write!(
                f,
                "train {i} stands in sections {behind} and {before}, which do not hang together"
            ),
            Broken::Moved(q, x, i, left) => {
                let lies = side(left);
                let wanted = side(!left);
                write!(
                    f,
                    "point {q} lies {lies} under train {i} in section {x}, and is wanted {wanted}"
                )
            }
            Broken::Unlocked(r, x) => write!(
                f,
                "route {r} may be entered, and section {x} of its path is not locked for it"
            ),
            Broken::Occupied(r, x) => write!(
                f,
                "route {r} may be entered, and section {x} of its path is occupied"
            ),
            Broken::Unmet(r, q) => write!(
                f,
                "route {r} may be entered, and point {q} lies otherwise than it needs"
            ),
            Broken::Blocked(i, x) => write!(
                f,
                "train {i} has no signal before it, and section {x} before it is occupied"
            ),
            Broken::Orphan(x, r) => write!(f, "section {x} is locked for route {r}, which is idle"),
            Broken::Twice(i, x) => write!(f, "train {i} has section {x} twice"),
            Broken::Late(r, m) => write!(f, "route {r} falls with a time of {m} left"),
            Broken::Unentered(r) => write!(f, "route {r} was entered and is not used"),
            Broken::Unpassed(x) => write!(
                f,
                "section {x} is locked and occupied, and was not noted as passed"
            ),
            Broken::Unwanted(r) => write!(
                f,
                "route {r} is set, and a point that it needs is wanted otherwise"
            ),
            Broken::Kept(r) => write!(
                f,
                "route {r} is used with no train in its path, and can't be taken back"
            ),
        }
    }
}
