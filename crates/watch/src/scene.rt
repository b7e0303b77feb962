// A station's world, read once: what the promises are looked at in.
ghost use Rattle.std.specs.Prelude.{◌≡◌, ◌<◌, true, false, MatchOption};
ghost use Rattle.model.specs.World.{occupied};
ghost use Rattle.plan.specs.Plan.{among};
ghost use Rattle.watch.specs.Scene.{Shows, body_in, trains_in};

use interlocking::Interlocking;
use model::station::Station;
use plan::read::found;
use plan::view::Plan;

#[derive(Drop)]
pub(crate) struct Scene<'a> {
    pub(crate) station: &'a Station<'a>,
    pub(crate) plan: Plan<'a>,
    pub(crate) interlocking: Interlocking,
    pub(crate) lies: [bool; 32],
    pub(crate) occupied: [bool; 64],
}

impl<'a> Scene<'a> {
    pub(crate) fn new(station: &'a Station<'a>) -> Scene<'a>
        ensures { Shows result station.now }
    {
        Scene {
            station,
            plan: station.plan(),
            interlocking: station.interlocking(),
            lies: station.lies(),
            occupied: station.occupancy(),
        }
    }

    // The first train that stands in a section.
    pub(crate) fn train_in(&self, x: u16) -> Option<usize>
        ensures { MatchOption result (occupied 16 (trains_in self.now) x ≡ false) (λ i. (i < 16) × (among x (body_in self.now i) ≡ true)) }
    {
        (0..16).find(|i| found(self.station.sections_of(*i), x))
    }
}
