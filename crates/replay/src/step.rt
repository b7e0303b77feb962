// One entry of a journal after the other.
ghost use Rattle.std.specs.Prelude.{◌≡◌, IfOk};
ghost use Rattle.model.specs.Stations.{station_plan, station_world};
ghost use Rattle.model.specs.World.{empty_station};
ghost use Rattle.plan.specs.Plan.{marks, Positions};
ghost use Rattle.plan.specs.View.{plan_of};
ghost use Rattle.replay.specs.Replayed.{Nexts, Stands};

use crate::Wrong;
use journal::{Entry, Journal};
use model::station::Station;
use plan::view::Plan;
use std::alloc::{AllocError, Global};

// A station, and how many entries it has been stepped through: a number and no iterator, since a refusal names it. It holds no journal, so one that grows can be followed.
#[derive(Drop)]
pub struct Replay<'a> {
    pub station: Station<'a>,
    pub at: usize,
}

impl<'a> Replay<'a> {
    // At the start: the empty station, its points lying as they lay.
    pub fn new(heap: Global, plan: Plan<'a>, lies: [bool; 32]) -> Result<Replay<'a>, AllocError>
        ensures { IfOk result (λ s. (s.at ≡ 0) × (station_plan s.station ≡ plan_of plan.entry) × (station_world s.station ≡ empty_station (marks lies))) }
    {
        let station = Station::new(heap, plan, lies)?;
        Ok(Replay { station, at: 0 })
    }

    // The next entry, if there is one. What is refused changes nothing.
    pub fn next(&mut self, journal: &Journal) -> Result<Option<Entry>, Wrong>
        ensures nexts { Nexts (station_plan self.old.station) journal.now.entries.items self.old.at (station_world self.old.station) self.new.at (station_world self.new.station) result }
        ensures plan { station_plan self.new.station ≡ station_plan self.old.station }
        ensures run { (t : Positions) → Stands (station_plan self.old.station) t journal.now.entries.items self.old.at (station_world self.old.station) self.new.at (station_world self.new.station) result }
    {
        let Some(entry) = journal.entries.get(self.at) else {
            return Ok(None);
        };
        let own = self.station.would(entry.event);
        if entry.done != own {
            return Err(Wrong::Entry(self.at));
        }
        self.station.step(entry.event)?;
        self.at += 1;
        Ok(Some(*entry))
    }
}
