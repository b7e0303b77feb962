// The trains, the points and the interlocking of one station: 16 trains in sections below 64. Its plan is no part of it, since it never changes: `Station` holds both.
ghost use Rattle.std.specs.Prelude.{◌≡◌, true, vec_len};
ghost use Rattle.trains.specs.Held.{trains_inside};

use interlocking::Interlocking;
use trains::train::Train;

#[derive(Drop)]
pub struct World {
    pub(crate) interlocking: Interlocking,
    pub(crate) lies: [bool; 32],
    pub(crate) trains: Vec<Train>,
    ghost count: { vec_len trains ≡ 16 },
    ghost inside: { trains_inside trains.items ≡ true },
}
