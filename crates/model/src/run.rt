// A station from its start, one event after the other.
ghost use Rattle.std.specs.Prelude.{◌≡◌, IfOk, MatchResult};
ghost use Rattle.trains.specs.Held.{trains_of, within};
ghost use Rattle.model.specs.Held.{occupied_in};
ghost use Rattle.model.specs.Ran.{Ran};
ghost use Rattle.model.specs.Stations.{station_plan, station_world};
ghost use Rattle.model.specs.Steps.{happens, Told};
ghost use Rattle.model.specs.World.{empty_station};
ghost use Rattle.plan.specs.Plan.{marks};
ghost use Rattle.plan.specs.View.{plan_of};

use crate::Event;
use crate::station::Station;
use crate::world::World;
use interlocking::Interlocking;
use plan::view::Plan;
use std::alloc::{AllocError, Global};
use trains::fleet::no_trains;

// What a run leaves: the station, and for each event whether it was done.
#[derive(Drop)]
pub struct Outcome<'a> {
    pub station: Station<'a>,
    pub answers: Vec<bool>,
}

impl<'a> Station<'a> {
    // The empty station, its points lying as they lie.
    pub fn new(heap: Global, plan: Plan<'a>, lies: [bool; 32]) -> Result<Station<'a>, AllocError>
        ensures { IfOk result (λ s. (station_plan s ≡ plan_of plan.entry) × (station_world s ≡ empty_station (marks lies))) }
    {
        let trains = no_trains(heap)?;
        let interlocking = Interlocking::at_rest();
        let world = World {
            interlocking,
            lies,
            trains,
        };
        Ok(Station { plan, world })
    }

    // One event: whether it was done. What is not done changes nothing, and neither does want of memory.
    pub fn step(&mut self, event: Event) -> Result<bool, AllocError>
        ensures steps { MatchResult result (λ b. Told (station_plan self.old) 16 (station_world self.old) (station_world self.new) event b) (λ _. station_world self.new ≡ station_world self.old) }
        ensures plan { station_plan self.new ≡ station_plan self.old }
    {
        self.world.step(self.plan, event)
    }

    // Would an event be done? Nothing is changed.
    pub fn would(&self, event: Event) -> bool
        ensures { result ≡ happens (station_plan self.now) 16 (station_world self.now) event }
    {
        self.world.would(self.plan, event)
    }

    pub fn plan(&self) -> Plan<'a>
        ensures { plan_of result ≡ station_plan self.now }
    {
        self.plan
    }

    pub fn interlocking(&self) -> Interlocking
        ensures { result ≡ self.now.world.interlocking }
    {
        self.world.interlocking
    }

    // How the points lie.
    pub fn lies(&self) -> [bool; 32]
        ensures { result ≡ self.now.world.lies }
    {
        self.world.lies
    }

    // The sections that trains stand in.
    pub fn occupancy(&self) -> [bool; 64]
        ensures { marks result ≡ within (occupied_in self.now.world) }
    {
        self.world.occupancy()
    }

    // Does a train go up? One that is none does.
    pub fn goes_up(&self, i: usize) -> bool
        ensures { result ≡ (trains_of self.now.world.trains.items i).up }
    {
        self.world
            .trains
            .get(i)
            .map_or(true, |train| train.goes_up())
    }

    // The sections of a train, its front first.
    pub fn sections_of(&self, i: usize) -> &[u16]
        ensures { result.now ≡ (trains_of self.now.world.trains.items i).body }
    {
        self.world
            .trains
            .get(i)
            .map_or(&[], |train| train.sections())
    }
}

// Plays so many of the events as the budget allows, from the empty station.
pub fn run<'a>(
    heap: Global,
    plan: Plan<'a>,
    lies: [bool; 32],
    events: &[Event],
    budget: usize,
) -> Result<Outcome<'a>, AllocError>
    ensures { IfOk result (λ done. (station_plan done.station ≡ plan_of plan.entry) × Ran (plan_of plan.entry) (marks lies) events.now budget done.answers.items (station_world done.station)) }
{
    let mut station = Station::new(heap, plan, lies)?;
    let mut answers = Vec::new(heap);
    for event in events.iter().take(budget) {
        let done = station.step(*event)?;
        answers.push(done)?;
    }
    Ok(Outcome { station, answers })
}
