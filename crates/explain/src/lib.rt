// Why a plan is not sound, or why numbers are no plan: which section, end or point is wrong.
#![tactic(auto)]

use plan::Size;

pub mod lies;
pub mod numbers;
pub mod route;
pub mod whole;
pub mod why;
pub mod words;

// How the point at an end lies.
#[derive(Clone, Copy, Debug, PartialEq, Eq)]
pub enum Lie {
    // No point moves the end.
    Fixed,
    // This point, on the left.
    Left(u16),
    // This point, on the right.
    Right(u16),
}

// One way beyond an end of a section.
#[derive(Clone, Copy, Debug, PartialEq, Eq)]
pub struct Way {
    pub up: bool,
    pub from: u16,
    pub lie: Lie,
    pub beyond: u16,
    // What lies beyond is no section. Its number stands beside it all the same: the rules compare that, and `Lies` says both.
    pub outside: bool,
}

// What is wrong with a route.
#[derive(Clone, Copy, Debug, PartialEq, Eq)]
pub enum RouteFault {
    // It begins at this section, and there are only so many.
    NoBegin(u16, u16),
    // It begins that way at this section, which has no such signal.
    NoSignal(bool, u16),
    NoPath,
    // It comes back to the section that it begins at.
    ComesBack(u16),
    // This section stands twice in its path.
    Twice(u16),
    // It needs this point left and right.
    NeedsBoth(u16),
    // It needs this point, and there are only so many.
    NoPoint(u16, u16),
    // This section of its path is not there: there are only so many.
    NoSection(u16, u16),
    // It goes on to this section, and the way leads elsewhere.
    Astray(Way, u16),
    // It comes from this section, and the way back leads elsewhere.
    NoReturn(Way, u16),
    // This section, not the last, has a signal that way.
    Signal(bool, u16),
    // This section is the last, and has no signal that way and is no edge.
    NoEnd(bool, u16),
    // This point, in this section of the path, is not needed.
    NotNeeded(u16, u16),
}

// What is wrong with the rest of a plan.
#[derive(Clone, Copy, Debug, PartialEq, Eq)]
pub enum PlanFault {
    // The end that way of this section is moved by this point, and there are only so many.
    Missing(bool, u16, u16, u16),
    // The end that way of this section is moved by this point, which has its place there.
    Elsewhere(bool, u16, u16, u16),
    // This point has its place there, and there are only so many sections.
    NoPlace(u16, u16, u16),
    // This point has its place in this edge.
    InEdge(u16, u16),
    // An edge has no signal at this end, and a section beyond it.
    Open(Way),
}

// Why numbers are no plan.
#[derive(Clone, Copy, Debug, PartialEq, Eq)]
pub enum NumbersFault {
    // There are so many numbers, too few for the sizes.
    TooFew(usize),
    // This size is so large, out of its range.
    OutOfRange(Size, u16),
    // There are so many numbers, and should be so many.
    Length(usize, usize),
    // At this place stands this number, and at most that may stand there.
    Large(usize, u16, u16),
}

// Why numbers are not a sound plan.
#[derive(Clone, Copy, Debug, PartialEq, Eq)]
pub enum Reason {
    Numbers(NumbersFault),
    Route(u16, RouteFault),
    Whole(PlanFault),
}
