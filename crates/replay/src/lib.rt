// A journal replayed: the station is stepped through the entries, and one whose answer is not the station's own is refused.
#![tactic(auto)]

ghost use Rattle.std.specs.Prelude.{◌≡◌, List};
ghost use Rattle.memory.specs.Memory.{state_in};
ghost use Rattle.model.specs.Stations.{station_plan, station_world};
ghost use Rattle.model.specs.World.{after};
ghost use Rattle.model.specs.declared.Event.{Event as Happening};
ghost use Rattle.plan.specs.Plan.{marks, Positions};
ghost use Rattle.plan.specs.View.{plan_of};
ghost use Rattle.replay.specs.Replayed.{Own, Replays};
ghost use Rattle.replay.specs.declared.Wrong.TheVariants.{Memory};

use crate::step::Replay;
use journal::Journal;
use model::station::Station;
use plan::view::Plan;
use std::alloc::{AllocError, Global};

pub mod step;

// Why an entry is not replayed: for want of memory, or its answer is not the station's own. No generic type, since clauses name its own cases.
#[derive(Debug, Clone, Copy, PartialEq, Eq)]
pub enum Wrong {
    Memory,
    Entry(usize),
}

impl From<AllocError> for Wrong {
    ghost from_gives = { λ _ wrong. wrong ≡ Memory };

    fn from(_error: AllocError) -> Wrong {
        Wrong::Memory
    }
}

// The station after the first entries of a journal, as many as asked for or as there are.
pub fn replay<'a>(
    heap: Global,
    plan: Plan<'a>,
    journal: &Journal,
    upto: usize,
) -> Result<Station<'a>, Wrong>
    ensures { Replays (plan_of plan.entry) (marks journal.now.lies) journal.now.entries.items upto result }
{
    let mut replay = Replay::new(heap, plan, journal.lies)?;
    for _ in 0..upto.min(journal.entries.len()) {
        replay.next(journal)?;
    }
    Ok(replay.station)
}

// The interlocking's memory at this moment.
pub fn memory_of(station: &Station<'_>) -> [u16; 224]
    ensures { (t : Positions) (row : List Happening) → station_world station.now ≡ after (station_plan station.now) 16 t row → state_in result ≡ (station_world station.now).interlocking }
{
    let mut memory = memory::empty();
    let interlocking = station.interlocking();
    memory::store(&interlocking, &mut memory);
    memory
}

// Of every run, the journal of it replays with no refusal, and the world after each entry is the run's own.
pub fn own_holds()
    ensures { Own }
{}
