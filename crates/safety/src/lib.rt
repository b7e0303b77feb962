// What holds of every sound plan and every lawful row of events, and of every state. Each function does nothing: its contract is the statement.
#![tactic(auto)]

ghost use Rattle.soundness.specs.Promise.{Judged};
ghost use Rattle.safety.specs.Promise.{Agrees, AlwaysInRoom, ArraysInRoom, EitherOrder, StrangersInSound, Theorem, Unchanged};
ghost use Rattle.safety.specs.Safe.{Keeps};

pub mod run;
pub mod strangers;

// After every lawful row of events of a sound plan that there is room for, all promises hold: the main one is that no section has two trains.
pub fn theorem_holds()
    ensures { Theorem }
{}

// Each event that can happen keeps the invariant from which the theorem follows.
pub fn keeps_holds()
    ensures { Keeps }
{}

// A request that is not granted changes nothing.
pub fn unchanged_holds()
    ensures { Unchanged }
{}

// Routes that share no section and no point can be asked for in either order, with the same answers and the same state in the end.
pub fn either_order_holds()
    ensures { EitherOrder }
{}

// In a sound plan, routes that share no section and no needed point are such.
pub fn strangers_in_sound_holds()
    ensures { StrangersInSound }
{}

// It is decided of every plan whether it is sound.
pub fn judged_holds()
    ensures { Judged }
{}

// No row of events leads to a state that holds anything beyond the room for 64 sections, 64 routes and 32 points.
pub fn in_room_holds()
    ensures { AlwaysInRoom }
{}

// A state that is kept in arrays of 64, 64 and 32 holds nothing beyond that room.
pub fn arrays_in_room_holds()
    ensures { ArraysInRoom }
{}

// The guards in the definitions say what the rules say: nothing of a sound plan is cut off, and a section is freed only if none before it is locked for its route.
pub fn agrees_holds()
    ensures { Agrees }
{}
