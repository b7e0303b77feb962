// Loops over all locks, or a path.
ghost use Rattle.std.specs.Prelude.{◌≡◌, ◌==◌};
ghost use Rattle.interlocking.specs.Says.{released, Swept};
ghost use Rattle.interlocking.specs.State.{all_vacant};
ghost use Rattle.plan.specs.Plan.{marks, pick};

use plan::read::mark_at;

// What is left of a lock.
fn released(held: u16, lock: u16) -> u16
    ensures { result ≡ pick (held == lock) 0 held }
{
    if held == lock { 0 } else { held }
}

// Lets go of a lock wherever it stands.
pub(crate) fn release(locks: &mut [u16], lock: u16)
    ensures { Swept (released lock) 0 locks.old locks.new }
{
    for held in locks.iter_mut() {
        *held = released(*held, lock);
    }
}

// Does nothing stand in a path?
pub(crate) fn all_vacant(occupied: &[bool], path: &[u16]) -> bool
    ensures { result ≡ all_vacant (marks occupied.now) path.now }
{
    path.iter().all(|&x| !mark_at(occupied, x as usize))
}
