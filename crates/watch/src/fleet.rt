// What is promised of trains, of which there are 16: a range gives each number, and a type for it would be made and taken apart at each.
ghost use Rattle.std.specs.Prelude.{◌≡◌, ℕ, ◌+◌, ◌<◌, ◌≤◌, true, false, List, ◌∷◌, MatchOption};
ghost use Rattle.model.specs.World.{occupied};
ghost use Rattle.plan.specs.Plan.{Once, among};
ghost use Rattle.safety.specs.Promise.{Hangs};
ghost use Rattle.watch.specs.Broken.{ApartLists, Doubled, Parted, WayAt, WayBlocked, joined};
ghost use Rattle.watch.specs.Scene.{Looked, body_in, lies_in, occupied_in, plan_in, state_in, trains_in, up_in};

use crate::Broken;
use crate::scene::Scene;
use plan::read::{found, mark_at, repeated};
use trains::track::beyond;

// The first section that two trains share.
fn shared(a: &[u16], b: &[u16]) -> Option<u16>
    ensures { MatchOption result (ApartLists a.now b.now) (λ x. (among x a.now ≡ true) × (among x b.now ≡ true)) }
{
    a.iter().copied().find(|x| found(b, *x))
}

// The first section that stands twice in a list.
fn doubled(body: &[u16]) -> Option<u16>
    ensures { MatchOption result (Once body.now) (λ x. Doubled x body.now) }
{
    repeated(body)
}

impl Scene<'_> {
    // A train, by its sections, that shares one with another.
    fn together(&self, i: usize, body: &[u16], j: usize) -> Option<Broken>
        requires first { i < j }
        requires second { j < 16 }
        requires body { body.now ≡ body_in self.now i }
        ensures { Looked self.now result (ApartLists (body_in self.now i) (body_in self.now j)) }
    {
        shared(body, self.station.sections_of(j)).map(|x| Broken::Together(x, i, j))
    }

    // A train that shares a section with a later one.
    fn crowded(&self, i: usize) -> Option<Broken>
        requires { i < 16 }
        ensures { Looked self.now result ((j : ℕ) → i + 1 ≤ j → j < 16 → ApartLists (body_in self.now i) (body_in self.now j)) }
    {
        let body = self.station.sections_of(i);
        (i + 1..16).find_map(|j| self.together(i, body, j))
    }

    // No section has two trains.
    pub(crate) fn apart(&self) -> Option<Broken>
        ensures { Looked self.now result ((i : ℕ) → i < 16 → (j : ℕ) → i + 1 ≤ j → j < 16 → ApartLists (body_in self.now i) (body_in self.now j)) }
    {
        (0..16).find_map(|i| self.crowded(i))
    }

    // A train that has a section twice.
    fn twice(&self, i: usize) -> Option<Broken>
        requires { i < 16 }
        ensures { Looked self.now result (Once (body_in self.now i)) }
    {
        doubled(self.station.sections_of(i)).map(|x| Broken::Twice(i, x))
    }

    // No train has a section twice.
    pub(crate) fn each_once(&self) -> Option<Broken>
        ensures { Looked self.now result ((i : ℕ) → i < 16 → Once (body_in self.now i)) }
    {
        (0..16).find_map(|i| self.twice(i))
    }

    // Do two sections hang together as the points lie, the second in front of the first?
    fn joined(&self, up: bool, a: u16, b: u16) -> bool
        ensures { result ≡ joined (plan_in self.now) (lies_in self.now) up a b }
    {
        (beyond(self.plan, &self.lies, up, a) == b) & (beyond(self.plan, &self.lies, !up, b) == a)
    }

    // The first two sections of a train, the one behind first, that do not hang together.
    // Tried with `windows` and `find`: the check alone does not close it, and a lemma on runs of windows is longer than this loop.
    fn parted(&self, up: bool, body: &[u16]) -> Option<(u16, u16)>
        ensures { MatchOption result (Hangs (plan_in self.now) (lies_in self.now) up body.now) (λ x. Parted (plan_in self.now) (lies_in self.now) up body.now x.0 x.1) }
    {
        let mut rest = body;
        while let [before, behind, ..] = rest {
            if !self.joined(up, *behind, *before) {
                return Some((*behind, *before));
            }
            rest = &rest[1..];
        }
        None
    }

    // A train that stands on no way that hangs together.
    fn torn(&self, i: usize) -> Option<Broken>
        requires { i < 16 }
        ensures { Looked self.now result (Hangs (plan_in self.now) (lies_in self.now) (up_in self.now i) (body_in self.now i)) }
    {
        self.parted(self.station.goes_up(i), self.station.sections_of(i))
            .map(|(behind, before)| Broken::Torn(i, behind, before))
    }

    // Every train stands on a way that hangs together.
    pub(crate) fn standing(&self) -> Option<Broken>
        ensures { Looked self.now result ((i : ℕ) → i < 16 → Hangs (plan_in self.now) (lies_in self.now) (up_in self.now i) (body_in self.now i)) }
    {
        (0..16).find_map(|i| self.torn(i))
    }

    // A point that lies otherwise than wanted, and has a train over it.
    fn moved(&self, q: u16) -> Option<Broken>
        requires { q < (plan_in self.now).points }
        ensures { Looked self.now result (occupied 16 (trains_in self.now) ((plan_in self.now).place q) ≡ true → (state_in self.now).wanted q ≡ lies_in self.now q) }
    {
        let left = mark_at(&self.lies, usize::from(q));
        if left == self.interlocking.wants_left(usize::from(q)) {
            return None;
        }
        let x = self.plan.place(q);
        self.train_in(x).map(|i| Broken::Moved(q, x, i, left))
    }

    // Where a train stands, a point lies as it is wanted.
    pub(crate) fn still(&self) -> Option<Broken>
        ensures { Looked self.now result ((q : ℕ) → q < (plan_in self.now).points → occupied 16 (trains_in self.now) ((plan_in self.now).place q) ≡ true → (state_in self.now).wanted q ≡ lies_in self.now q) }
    {
        (0..self.plan.points()).find_map(|q| self.moved(q))
    }

    // The occupied section before a front, where no signal keeps a train from it.
    fn blocking(&self, up: bool, x: u16) -> Option<u16>
        ensures { MatchOption result (WayAt (plan_in self.now) (lies_in self.now) (occupied_in self.now) up x) (λ y. WayBlocked (plan_in self.now) (lies_in self.now) (occupied_in self.now) up x y) }
    {
        if self.plan.signal(up, x) {
            return None;
        }
        let y = beyond(self.plan, &self.lies, up, x);
        if y >= self.plan.sections() {
            return None;
        }
        mark_at(&self.occupied, usize::from(y)).then_some(y)
    }

    // The same, before a train's sections.
    fn before(&self, up: bool, body: &[u16]) -> Option<u16>
        ensures { MatchOption result ((x : ℕ) → (xs : List ℕ) → body.now ≡ x ∷ xs → WayAt (plan_in self.now) (lies_in self.now) (occupied_in self.now) up x) (λ y. (x : ℕ) × (xs : List ℕ) × (body.now ≡ x ∷ xs) × WayBlocked (plan_in self.now) (lies_in self.now) (occupied_in self.now) up x y) }
    {
        let front = body.first()?;
        self.blocking(up, *front)
    }

    // A train that has not its way before it.
    fn blocked(&self, i: usize) -> Option<Broken>
        requires { i < 16 }
        ensures { Looked self.now result ((x : ℕ) → (xs : List ℕ) → body_in self.now i ≡ x ∷ xs → WayAt (plan_in self.now) (lies_in self.now) (occupied_in self.now) (up_in self.now i) x) }
    {
        self.before(self.station.goes_up(i), self.station.sections_of(i))
            .map(|x| Broken::Blocked(i, x))
    }

    // A train with no signal before its front has its way before it.
    pub(crate) fn way_before(&self) -> Option<Broken>
        ensures { Looked self.now result ((i : ℕ) → i < 16 → (x : ℕ) → (xs : List ℕ) → body_in self.now i ≡ x ∷ xs → WayAt (plan_in self.now) (lies_in self.now) (occupied_in self.now) (up_in self.now i) x) }
    {
        (0..16).find_map(|i| self.blocked(i))
    }
}
