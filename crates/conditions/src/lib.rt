// When a plan keeps a rule, when a request is granted, and when a train may move: the conditions alone, each in one place.
// Each takes the bare numbers and marks that it decides by; a lock is 0 for none, as the interlocking holds it.
#![tactic(auto)]

ghost use Rattle.std.specs.Prelude.{eqb, leb, ltb, ◌&&◌, ◌||◌, not, ◌≡◌};

// A route begins in a section that there is, at a signal.
pub fn has_begin(begin: u16, sections: u16, signal: bool) -> bool
    ensures { result ≡ (ltb begin sections && signal) }
{
    (begin < sections) & signal
}

// One leg of an end leads to a section, or what the route needs rules it out.
pub fn leads_on(leg: u16, x: u16, ruled_out: bool) -> bool
    ensures { result ≡ (eqb leg x || ruled_out) }
{
    (leg == x) | ruled_out
}

// The last section of a path has a signal, or is an edge.
pub fn has_end(signal: bool, edge: bool) -> bool
    ensures { result ≡ (signal || edge) }
{
    signal | edge
}

// A point with its place in a path is needed.
pub fn is_held(inside: bool, needed: bool) -> bool
    ensures { result ≡ (not inside || needed) }
{
    !inside | needed
}

// A point that moves an end of a section is there, and has its place in that section.
pub fn is_own(moves: bool, point: u16, points: u16, place: u16, x: u16) -> bool
    ensures { result ≡ (not moves || (ltb point points && eqb place x)) }
{
    !moves | ((point < points) & (place == x))
}

// Outside lies beyond an end, however its point lies.
pub fn is_outside(sections: u16, on_left: u16, moves: bool, on_right: u16) -> bool
    ensures { result ≡ (leb sections on_left && (not moves || leb sections on_right)) }
{
    (sections <= on_left) & (!moves | (sections <= on_right))
}

// An edge is shut both ways.
pub fn is_closed(edge: bool, up: bool, down: bool) -> bool
    ensures { result ≡ (not edge || (up && down)) }
{
    !edge | (up & down)
}

// A point is of no concern to a route: neither needed nor in its path.
pub fn is_apart(needed: bool, inside: bool) -> bool
    ensures { result ≡ not (needed || inside) }
{
    !(needed | inside)
}

// A section is free if nothing has locked it and nothing stands in it.
pub fn is_free(lock: u16, occupied: bool) -> bool
    ensures { result ≡ (eqb lock 0 && not occupied) }
{
    (lock == 0) & !occupied
}

// An idle route is set if all its path is free and all its points can be had.
pub fn may_set(there: bool, idle: bool, free: bool, had: bool) -> bool
    ensures { result ≡ (there && (idle && (free && had))) }
{
    there & (idle & (free & had))
}

// A point is wanted otherwise than before if no route holds it and its place is vacant and not locked.
pub fn may_turn(held: bool, occupied: bool, lock: u16) -> bool
    ensures { result ≡ (not held && (not occupied && eqb lock 0)) }
{
    !held & (!occupied & (lock == 0))
}

// A set route is shown once its points lie as it needs, and are wanted so.
pub fn may_show(there: bool, set: bool, lie: bool, wanted: bool) -> bool
    ensures { result ≡ (there && (set && (lie && wanted))) }
{
    there & (set & (lie & wanted))
}

// A set or shown route can always be taken back, a used one only if nothing stands in its path.
pub fn may_take_back(there: bool, waits: bool, used: bool, vacant: bool) -> bool
    ensures { result ≡ (there && (waits || (used && vacant))) }
{
    there & (waits | (used & vacant))
}

// A passed section of a used route goes in the order of the path, once it is vacant; the last need not be.
pub fn may_free(passed: bool, used: bool, behind: bool, occupied: bool, last: bool) -> bool
    ensures { result ≡ (passed && (used && (behind && (not occupied || last)))) }
{
    passed & (used & (behind & (!occupied | last)))
}

// A front passes a signal only if a route is open to it.
pub fn may_pass(signal: bool, open: bool) -> bool
    ensures { result ≡ (not signal || «open») }
{
    !signal | open
}

// A front goes on if it is somewhere, a section lies beyond, and it may pass what stands there.
pub fn may_go(nowhere: bool, beyond: u16, sections: u16, passes: bool) -> bool
    ensures { result ≡ (not nowhere && (ltb beyond sections && passes)) }
{
    !nowhere & ((beyond < sections) & passes)
}

// A train comes in at an edge with a signal that way, not locked and not occupied.
pub fn may_come(edge: bool, signal: bool, lock: u16, occupied: bool) -> bool
    ensures { result ≡ (edge && (signal && (eqb lock 0 && not occupied))) }
{
    edge & (signal & ((lock == 0) & !occupied))
}

// A train turns round where a signal stands at its other end.
pub fn may_turn_round(nowhere: bool, signal: bool) -> bool
    ensures { result ≡ (not nowhere && signal) }
{
    !nowhere & signal
}

// A train leaves that stands in one section with outside before it.
pub fn may_leave(nowhere: bool, short: bool, sections: u16, beyond: u16) -> bool
    ensures { result ≡ (not nowhere && (short && leb sections beyond)) }
{
    !nowhere & (short & (sections <= beyond))
}

// Where a point lies once it has turned: where it is wanted, wherever it lay.
pub fn turned(wanted: bool, _lay: bool) -> bool
    ensures { result ≡ wanted }
{
    let left = wanted;
    left
}
