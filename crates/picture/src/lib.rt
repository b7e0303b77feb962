// The picture: what stands where and what is set, for each section, point, signal and route.
#![tactic(auto)]

ghost use Rattle.std.specs.Prelude.{◌≡◌, ℕ, false, None, nat_lt, slice_index, slice_index_or};
ghost use Rattle.interlocking.specs.Says.{state_of};
ghost use Rattle.picture.specs.Picture.{light_at, light_number, light_of, locked_for, number_in, Pictured, stage_kind, time_left};
ghost use Rattle.plan.specs.Plan.{marks, pick};
ghost use Rattle.plan.specs.View.{plan_of};

use field::{Aspect, Field};
use interlocking::{Interlocking, Stage};
use plan::read::mark_at;
use plan::view::Plan;
use std::array;

// What was seen and what is set at one time. `up` and `down` are the signals at the two ends of each section. Arrays, as in the interlocking, so that no memory is asked for.
#[derive(Clone, Copy)]
pub struct Picture {
    pub sections: u16,
    pub points: u16,
    pub routes: u16,
    pub occupied: [bool; 64],
    pub lies: [bool; 32],
    pub up: [Option<Aspect>; 64],
    pub down: [Option<Aspect>; 64],
    pub interlocking: Interlocking,
}

// Where each part of the numbers begins, after the occupied sections. They are a form for others to read, so numbers and no enum.
const LOCK: usize = 64;

const UP: usize = 128;

const DOWN: usize = 192;

const LIES: usize = 256;

const WANTED: usize = 288;

const STAGE: usize = 320;

const TIME: usize = 384;

// The number of what stands at an end of a section: no signal, or what the one there shows.
pub fn light_number(light: Option<Aspect>) -> u16
    ensures { result ≡ light_number light }
{
    match light {
        None => 0,
        Some(Aspect::Stop) => 1,
        Some(Aspect::Proceed) => 2,
    }
}

fn light_on(field: Field<'_, '_>, up: bool, x: usize) -> Option<Aspect>
    ensures { result ≡ light_of (plan_of field.entry.plan) (state_of field.entry.interlocking.now) up x }
{
    if x < usize::from(field.plan.sections()) && field.plan.signal(up, x as u16) {
        Some(field.aspect_at(up, x))
    } else {
        None
    }
}

fn lights(field: Field<'_, '_>, up: bool) -> [Option<Aspect>; 64]
    ensures { (x : ℕ) → slice_index_or result x None ≡ pick (nat_lt x 64) (light_of (plan_of field.entry.plan) (state_of field.entry.interlocking.now) up x) None }
{
    array::from_fn(|x| light_on(field, up, x))
}

// So many marks, of those that are given: `marks` of `memory` reads them from numbers instead.
fn marked<const N: usize>(given: &[bool]) -> [bool; N]
    ensures { (x : ℕ) → slice_index_or result x false ≡ pick (nat_lt x N) (marks given.now x) false }
{
    array::from_fn(|x| mark_at(given, x))
}

// The number of a stage, without the time that is left; a stage holds data, so this is no cast.
fn stage_kind(stage: Stage) -> u16
    ensures { result ≡ stage_kind stage }
{
    match stage {
        Stage::Idle => 0,
        Stage::Set => 1,
        Stage::Shown => 2,
        Stage::Used => 3,
        Stage::Falling(_) => 4,
    }
}

impl Picture {
    pub fn new(
        plan: Plan<'_>,
        interlocking: Interlocking,
        occupied: &[bool],
        lies: &[bool],
    ) -> Picture
        ensures { Pictured (plan_of plan.entry) interlocking (marks occupied.now) (marks lies.now) result }
    {
        let field = Field {
            plan,
            interlocking: &interlocking,
        };
        Picture {
            sections: plan.sections(),
            points: plan.points(),
            routes: plan.routes(),
            occupied: marked::<64>(occupied),
            lies: marked::<32>(lies),
            up: lights(field, true),
            down: lights(field, false),
            interlocking,
        }
    }

    pub fn is_occupied(&self, x: usize) -> bool
        ensures { result ≡ marks self.now.occupied x }
    {
        mark_at(&self.occupied, x)
    }

    // The route that a section is locked for, if any.
    pub fn locked_for(&self, x: usize) -> Option<u16>
        ensures { result ≡ locked_for ((state_of self.now.interlocking).lock x) }
    {
        self.interlocking.lock_of(x).checked_sub(1)
    }

    // What the signal at an end of a section shows, if there is one.
    pub fn light(&self, up: bool, x: usize) -> Option<Aspect>
        ensures { result ≡ light_at self.now up x }
    {
        let lights = if up { &self.up } else { &self.down };
        *lights.get(x)?
    }

    pub fn lies_left(&self, q: usize) -> bool
        ensures { result ≡ marks self.now.lies q }
    {
        mark_at(&self.lies, q)
    }

    // The picture's own reading beside `lies_left`, so that what draws it needs no interlocking.
    pub fn wants_left(&self, q: usize) -> bool
        ensures { result ≡ (state_of self.now.interlocking).wanted q }
    {
        self.interlocking.wants_left(q)
    }

    pub fn stage(&self, r: usize) -> Stage
        ensures { result ≡ (state_of self.now.interlocking).stage r }
    {
        self.interlocking.stage_of(r)
    }

    // How much time a falling route has left; the others have none, for which the picture's numbers have 0.
    pub fn time_left(&self, r: usize) -> u16
        ensures { result ≡ time_left ((state_of self.now.interlocking).stage r) }
    {
        match self.stage(r) {
            Stage::Falling(n) => n,
            _ => 0,
        }
    }

    // One of the numbers. A light is 0 none, 1 stop, 2 proceed; a stage 0 idle, 1 set, 2 shown, 3 used, 4 falling.
    fn number(&self, k: usize) -> u16
        ensures { result ≡ number_in self.now k }
    {
        if k < LOCK {
            u16::from(self.is_occupied(k))
        } else if k < UP {
            self.interlocking.lock_of(k - LOCK)
        } else if k < DOWN {
            light_number(self.light(true, k - UP))
        } else if k < LIES {
            light_number(self.light(false, k - DOWN))
        } else if k < WANTED {
            u16::from(self.lies_left(k - LIES))
        } else if k < STAGE {
            u16::from(self.wants_left(k - WANTED))
        } else if k < TIME {
            stage_kind(self.stage(k - STAGE))
        } else {
            self.time_left(k - TIME)
        }
    }

    // The picture in 448 numbers.
    pub fn numbers(&self) -> [u16; 448]
        ensures { (k : ℕ) → slice_index result k ≡ pick (nat_lt k 448) (number_in self.now k) 0 }
    {
        array::from_fn(|k| self.number(k))
    }
}
