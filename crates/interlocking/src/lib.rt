// The interlocking: locks, stages and wants, and what it does when asked.
#![tactic(auto)]

ghost use Rattle.std.specs.Prelude.{◌≡◌, ◌+◌, ◌<◌, true, false, replicate, slice_index, slice_index_or};
ghost use Rattle.interlocking.specs.Says.{kind_of, request_of, SaysAt, stage_name, state_of, which_of};
ghost use Rattle.interlocking.specs.State.{at_rest, can_fall, is_falling, is_idle, is_open, is_set, is_used, let_go, restaged};
ghost use Rattle.interlocking.specs.declared.Stage.TheVariants.{Idle};

use plan::read::mark_at;
use plan::view::Plan;
use std::fmt;

mod ask;
mod back;
mod clear;
mod free;
mod sweep;
mod tick;

// A route is idle, set, shown, used, or falling with some time left.
#[derive(Clone, Copy, Debug, PartialEq, Eq)]
pub enum Stage {
    Idle,
    Set,
    Shown,
    Used,
    Falling(u16),
}

// What can be asked: a route set, shown, taken back, a section freed, and that time passes.
#[derive(Clone, Copy, Debug, Default, PartialEq, Eq)]
pub enum Request {
    Ask(usize),
    Clear(usize),
    Back(usize),
    Free(usize),
    #[default]
    Tick,
}

// What is seen when something is asked: the plan, the sections that are occupied, and the points that lie left.
#[derive(Clone, Copy)]
pub struct Sight<'a> {
    pub plan: Plan<'a>,
    pub occupied: &'a [bool],
    pub lies: &'a [bool],
}

// What was asked, and whether it was done.
#[derive(Clone, Copy, Debug, PartialEq, Eq)]
pub struct Answer {
    pub request: Request,
    pub done: bool,
}

// A lock is 0, or one more than the route that holds the section: the number that the lent memory holds, so not an `Option`.
// A section is passed if it has been occupied since it was locked; a point is wanted left or not.
// Arrays of a fixed size, given on by value: the station's memory, with no heap.
#[derive(Clone, Copy, Debug, PartialEq, Eq)]
pub struct Interlocking {
    pub locks: [u16; 64],
    pub passed: [bool; 64],
    pub stages: [Stage; 64],
    pub wanted: [bool; 32],
}

impl Stage {
    // How far a route is, in a word: no derive prints a variant without what it holds.
    pub fn name(self) -> &'static str
        ensures { result.now ≡ stage_name self }
    {
        match self {
            Stage::Idle => "idle",
            Stage::Set => "set",
            Stage::Shown => "shown",
            Stage::Used => "used",
            Stage::Falling(_) => "falling",
        }
    }

    pub fn is_idle(self) -> bool
        ensures { result ≡ is_idle self }
    {
        matches!(self, Stage::Idle)
    }

    pub fn is_set(self) -> bool
        ensures { result ≡ is_set self }
    {
        matches!(self, Stage::Set)
    }

    pub fn is_used(self) -> bool
        ensures { result ≡ is_used self }
    {
        matches!(self, Stage::Used)
    }

    // Was it taken back, and has it not fallen yet?
    pub fn is_falling(self) -> bool
        ensures { result ≡ is_falling self }
    {
        matches!(self, Stage::Falling(_))
    }

    // May a train still pass its signal?
    pub fn is_open(self) -> bool
        ensures { result ≡ is_open self }
    {
        matches!(self, Stage::Shown | Stage::Falling(_))
    }

    // Can it be taken back, whatever stands in its path?
    pub fn can_fall(self) -> bool
        ensures { result ≡ can_fall self }
    {
        matches!(self, Stage::Set | Stage::Shown)
    }
}

impl Request {
    // The request that a number stands for; a number of no request lets time pass, so this can't fail as a `TryFrom` would.
    pub fn of(kind: u64, which: usize) -> Request
        ensures { result ≡ request_of kind which }
    {
        match kind {
            0 => Request::Ask(which),
            1 => Request::Clear(which),
            2 => Request::Back(which),
            3 => Request::Free(which),
            _ => Request::Tick,
        }
    }

    fn answered(self, done: bool) -> Answer
        ensures request { result.request ≡ self }
        ensures done { result.done ≡ done }
    {
        Answer {
            request: self,
            done,
        }
    }

    // The number that a request has outside; it holds data, so this is no cast.
    pub fn kind(self) -> u64
        ensures { result ≡ kind_of self }
    {
        match self {
            Request::Ask(_) => 0,
            Request::Clear(_) => 1,
            Request::Back(_) => 2,
            Request::Free(_) => 3,
            Request::Tick => 4,
        }
    }

    // The route or the section that it is for.
    pub fn which(self) -> usize
        ensures { result ≡ which_of self }
    {
        match self {
            Request::Ask(r) | Request::Clear(r) | Request::Back(r) => r,
            Request::Free(x) => x,
            Request::Tick => 0,
        }
    }
}

// As an event is written in a script.
impl fmt::Display for Request {
    fn fmt<W: fmt::Write>(&self, f: &mut fmt::Formatter<W>) -> fmt::Result {
        match self {
            Request::Ask(r) => write!(f, "ask {r}"),
            Request::Clear(r) => write!(f, "clear {r}"),
            Request::Back(r) => write!(f, "back {r}"),
            Request::Free(x) => write!(f, "free {x}"),
            Request::Tick => f.write_str("tick"),
        }
    }
}

fn stage_at(stages: &[Stage], r: usize) -> Stage
    ensures { result ≡ slice_index_or stages.now r Idle }
{
    stages.get(r).copied().unwrap_or(Stage::Idle)
}

// Every point is wanted left.
fn all_left() -> [bool; 32]
    ensures { result ≡ replicate 32 true }
{
    [true; 32]
}

// The number of a route that there is room for.
#[derive(Clone, Copy)]
struct RouteNumber {
    number: usize,
    ghost below_64: { number < 64 },
}

impl RouteNumber {
    // Its lock.
    fn lock(self) -> u16
        ensures { result ≡ self.number + 1 }
    {
        self.number as u16 + 1
    }
}

impl Interlocking {
    // Nothing is locked, passed or set, and every point is wanted left.
    pub fn at_rest() -> Interlocking
        ensures { state_of result ≡ at_rest }
    {
        Interlocking {
            locks: [0; 64],
            passed: [false; 64],
            stages: [Stage::Idle; 64],
            wanted: all_left(),
        }
    }

    pub fn lock_of(&self, x: usize) -> u16
        ensures { result ≡ slice_index self.now.locks x }
    {
        self.locks.get(x).copied().unwrap_or(0)
    }

    pub fn stage_of(&self, r: usize) -> Stage
        ensures { result ≡ slice_index_or self.now.stages r Idle }
    {
        stage_at(&self.stages, r)
    }

    pub fn is_passed(&self, x: usize) -> bool
        ensures { result ≡ slice_index_or self.now.passed x false }
    {
        mark_at(&self.passed, x)
    }

    pub fn wants_left(&self, q: usize) -> bool
        ensures { result ≡ slice_index_or self.now.wanted q false }
    {
        mark_at(&self.wanted, q)
    }

    fn restaged(mut self, r: RouteNumber, stage: Stage) -> Self
        ensures { state_of result ≡ restaged (state_of self) r.number stage }
    {
        self.stages[r.number] = stage;
        self
    }

    // A route is idle, and its locks go.
    fn let_go(mut self, r: RouteNumber) -> Self
        ensures { state_of result ≡ let_go (state_of self) r.number }
    {
        sweep::release(&mut self.locks, r.lock());
        self.stages[r.number] = Stage::Idle;
        self
    }

    // What is asked for by its number.
    pub fn act(self, sight: Sight<'_>, kind: u64, which: usize) -> (Self, Answer)
        ensures { SaysAt sight.entry self (request_of kind which) result.0 result.1 }
    {
        let kind = kind;
        match kind {
            0 => self.ask(sight, which),
            1 => self.clear(sight, which),
            2 => self.back(sight, which),
            3 => self.free(sight, which),
            _ => self.tick(sight),
        }
    }

    // What is asked is done, or not, as the rules decide: by its number through `act`, so that there is one way for both.
    pub fn perform(self, sight: Sight<'_>, request: Request) -> (Self, Answer)
        ensures { SaysAt sight.entry self request result.0 result.1 }
    {
        self.act(sight, request.kind(), request.which())
    }
}
