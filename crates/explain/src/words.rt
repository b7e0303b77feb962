// One sentence for each reason.
use crate::{Lie, NumbersFault, PlanFault, Reason, RouteFault, Way};
use plan::Size;
use std::fmt;

// The way of a train; `plan::side` has the words for a point.
fn way_word(up: bool) -> &'static str {
    if up { "up" } else { "down" }
}

// How many of a thing there are, where more were named.
#[derive(Clone, Copy)]
struct Only {
    n: u16,
    thing: &'static str,
}

impl fmt::Display for Only {
    fn fmt<W: fmt::Write>(&self, f: &mut fmt::Formatter<W>) -> fmt::Result {
        if self.n == 1 {
            write!(f, "there is only 1 {}", self.thing)
        } else {
            write!(f, "there are only {} {}s", self.n, self.thing)
        }
    }
}

fn there_are(n: u16, thing: &'static str) -> Only {
    Only { n, thing }
}

// How the point of an end lies, as the beginning of what is said of the end.
impl fmt::Display for Lie {
    fn fmt<W: fmt::Write>(&self, f: &mut fmt::Formatter<W>) -> fmt::Result {
        match *self {
            Lie::Fixed => Ok(()),
            Lie::Left(q) => write!(f, "with point {q} on the left, "),
            Lie::Right(q) => write!(f, "with point {q} on the right, "),
        }
    }
}

// The same of a point that a route leaves free.
#[derive(Clone, Copy)]
struct Free(Lie);

impl fmt::Display for Free {
    fn fmt<W: fmt::Write>(&self, f: &mut fmt::Formatter<W>) -> fmt::Result {
        let lie = self.0;
        match lie {
            Lie::Fixed => Ok(()),
            Lie::Left(_) => write!(f, "{lie}which the route does not need right, "),
            Lie::Right(_) => write!(f, "{lie}which the route does not need left, "),
        }
    }
}

// What a way leads to.
#[derive(Clone, Copy)]
struct Place(Way);

impl fmt::Display for Place {
    fn fmt<W: fmt::Write>(&self, f: &mut fmt::Formatter<W>) -> fmt::Result {
        if self.0.outside {
            write!(f, "outside")
        } else {
            write!(f, "section {}", self.0.beyond)
        }
    }
}

// What is wrong with a route, after its name.
impl fmt::Display for RouteFault {
    fn fmt<W: fmt::Write>(&self, f: &mut fmt::Formatter<W>) -> fmt::Result {
        match *self {
            RouteFault::NoBegin(x, n) => {
                write!(f, "begins at section {x}, and {}", there_are(n, "section"))
            }
            RouteFault::NoSignal(up, x) => {
                let up = way_word(up);
                write!(
                    f,
                    "begins at section {x} going {up}, and section {x} has no signal {up}"
                )
            }
            RouteFault::NoPath => write!(f, "has no sections in its path"),
            RouteFault::ComesBack(x) => write!(
                f,
                "begins at section {x}, and section {x} stands in its path"
            ),
            RouteFault::Twice(x) => write!(
                f,
                "goes through section {x}, and through section {x} again"
            ),
            RouteFault::NeedsBoth(q) => write!(f, "needs point {q} left, and point {q} right"),
            RouteFault::NoPoint(q, n) => write!(
                f,
                "needs point {q}, and {}",
                there_are(n, "point")
            ),
            RouteFault::NoSection(x, n) => {
                write!(
                    f,
                    "goes through section {x}, and {}",
                    there_are(n, "section")
                )
            }
            RouteFault::Astray(way, b) => write!(
                f,
                "goes {} from section {} to section {b}, but {}{} lies beyond",
                way_word(way.up),
                way.from,
                Free(way.lie),
                Place(way)
            ),
            RouteFault::NoReturn(back, a) => {
                let b = back.from;
                let to = if back.outside { "" } else { "to " };
                write!(
                    f,
                    "goes {} from section {a} to section {b}, but {}going {} from section {b} one comes {to}{}, not to section {a}",
                    way_word(!back.up),
                    Free(back.lie),
                    way_word(back.up),
                    Place(back)
                )
            }
            RouteFault::Signal(up, x) => write!(
                f,
                "passes section {x}, and section {x} has a signal {} and is not the last of its path",
                way_word(up)
            ),
            RouteFault::NoEnd(up, x) => write!(
                f,
                "ends at section {x}, and section {x} has no signal {} and is no edge",
                way_word(up)
            ),
            RouteFault::NotNeeded(q, x) => write!(
                f,
                "goes through section {x}, where point {q} lies, and does not need it"
            ),
        }
    }
}

impl fmt::Display for PlanFault {
    fn fmt<W: fmt::Write>(&self, f: &mut fmt::Formatter<W>) -> fmt::Result {
        match *self {
            PlanFault::Missing(up, x, q, n) => write!(
                f,
                "the end {} of section {x} is moved by point {q}, and {}",
                way_word(up),
                there_are(n, "point")
            ),
            PlanFault::Elsewhere(up, x, q, place) => write!(
                f,
                "the end {} of section {x} is moved by point {q}, which has its place in section {place}",
                way_word(up)
            ),
            PlanFault::NoPlace(q, place, n) => write!(
                f,
                "point {q} has its place in section {place}, and {}",
                there_are(n, "section")
            ),
            PlanFault::InEdge(q, x) => write!(
                f,
                "point {q} has its place in section {x}, which is an edge"
            ),
            PlanFault::Open(way) => {
                let up = way_word(way.up);
                write!(
                    f,
                    "section {} is an edge with no signal {up}, but {}{} lies beyond its end {up}",
                    way.from,
                    way.lie,
                    Place(way)
                )
            }
        }
    }
}

impl fmt::Display for NumbersFault {
    fn fmt<W: fmt::Write>(&self, f: &mut fmt::Formatter<W>) -> fmt::Result {
        match *self {
            NumbersFault::TooFew(n) => {
                write!(f, "there are {n} numbers, and a plan has at least 4")
            }
            NumbersFault::OutOfRange(Size::Sections, n) => {
                write!(f, "the plan has {n} sections, and may have 1 to 64")
            }
            NumbersFault::OutOfRange(Size::Points, n) => {
                write!(f, "the plan has {n} points, and may have at most 32")
            }
            NumbersFault::OutOfRange(Size::Routes, n) => {
                write!(f, "the plan has {n} routes, and may have at most 64")
            }
            NumbersFault::OutOfRange(Size::Time, n) => write!(
                f,
                "the plan has {n} ticks of time, and may have at most 1000"
            ),
            NumbersFault::Length(n, whole) => write!(
                f,
                "there are {n} numbers, and with these sizes there should be {whole}"
            ),
            NumbersFault::Large(k, n, limit) => write!(
                f,
                "the number at place {k}, counted from 0, is {n}, and may be at most {limit}"
            ),
        }
    }
}

impl fmt::Display for Reason {
    fn fmt<W: fmt::Write>(&self, f: &mut fmt::Formatter<W>) -> fmt::Result {
        match *self {
            Reason::Numbers(fault) => write!(f, "{fault}"),
            Reason::Route(r, fault) => write!(f, "route {r} {fault}"),
            Reason::Whole(fault) => write!(f, "{fault}"),
        }
    }
}
