// The trains of a station, by their numbers.
ghost use Rattle.std.specs.Prelude.{◌≡◌, length, IfOk};
ghost use Rattle.plan.specs.Plan.{marks};
ghost use Rattle.trains.specs.Held.{Nowhere, trains_of, within};
ghost use Rattle.trains.specs.Trains.{occupied};

use crate::train::Train;
use std::alloc::{AllocError, Global};

// 16 trains, none of them anywhere.
pub fn no_trains(heap: Global) -> Result<Vec<Train>, AllocError>
    ensures { IfOk result (λ v. Nowhere 16 v.items) }
{
    let mut trains = Vec::new(heap);
    for _ in 0..16usize {
        trains.push(Train::nowhere(heap))?;
    }
    Ok(trains)
}

// The sections that trains stand in, of 64.
pub fn occupancy(trains: &[Train]) -> [bool; 64]
    ensures { marks result ≡ within (occupied (length trains.now) (trains_of trains.now)) }
{
    let mut occupied = [false; 64];
    for train in trains {
        train.mark(&mut occupied);
    }
    occupied
}
