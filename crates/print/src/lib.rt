// Plans written as texts, as they are read.
#![tactic(auto)]

use plan::End;
use plan::route::Route;
use plan::view::Plan;
use std::alloc::{AllocError, Global};
use std::fmt;

// What lies beyond, in a plan of so many sections.
#[derive(Clone, Copy)]
struct Leg {
    beyond: u16,
    sections: u16,
}

// An end, in a plan of so many sections.
#[derive(Clone, Copy)]
struct EndText {
    end: End,
    sections: u16,
}

impl fmt::Display for Leg {
    fn fmt<W: fmt::Write>(&self, f: &mut fmt::Formatter<W>) -> fmt::Result {
        let beyond = self.beyond;
        if beyond < self.sections {
            write!(f, "{beyond}")
        } else {
            write!(f, "outside")
        }
    }
}

impl fmt::Display for EndText {
    fn fmt<W: fmt::Write>(&self, f: &mut fmt::Formatter<W>) -> fmt::Result {
        let sections = self.sections;
        let left = Leg {
            beyond: self.end.on_left,
            sections,
        };
        if !self.end.moves {
            return write!(f, "{left}");
        }
        let point = self.end.point;
        let right = Leg {
            beyond: self.end.on_right,
            sections,
        };
        write!(f, "point {point}: {left} or {right}")
    }
}

// The text of a plan: its sections, points, signals, edges and routes, and its time.
pub fn write_plan(heap: Global, plan: Plan<'_>) -> Result<String, AllocError> {
    let mut text = String::new(heap);
    for x in 0..plan.sections() {
        write_section(&mut text, plan, x)?;
    }
    for q in 0..plan.points() {
        let place = plan.place(q);
        write!(text, "point {q} in {place}\n")?;
    }
    for x in 0..plan.sections() {
        write_marks(&mut text, plan, x)?;
    }
    for r in 0..plan.routes() {
        write_route(&mut text, plan.route(usize::from(r)))?;
    }
    let time = plan.time();
    write!(text, "time {time}\n")?;
    Ok(text)
}

fn write_section(text: &mut String, plan: Plan<'_>, x: u16) -> Result<(), AllocError> {
    let sections = plan.sections();
    let up = EndText {
        end: plan.end(true, x),
        sections,
    };
    let down = EndText {
        end: plan.end(false, x),
        sections,
    };
    write!(text, "section {x} up {up} down {down}\n")
}

fn write_marks(text: &mut String, plan: Plan<'_>, x: u16) -> Result<(), AllocError> {
    if plan.signal(true, x) {
        write!(text, "signal up {x}\n")?;
    }
    if plan.signal(false, x) {
        write!(text, "signal down {x}\n")?;
    }
    if plan.edge(x) {
        write!(text, "edge {x}\n")?;
    }
    Ok(())
}

fn write_route(text: &mut String, route: Route<'_>) -> Result<(), AllocError> {
    // `plan` has words only for the sides of a point.
    let way = if route.up() { "up" } else { "down" };
    let begin = route.begin();
    write!(text, "route {way} from {begin} by")?;
    for x in route.path() {
        write!(text, " {x}")?;
    }
    write_needs(text, route)?;
    text.push_str("\n")
}

// The needs of a route, if it has some.
fn write_needs(text: &mut String, route: Route<'_>) -> Result<(), AllocError> {
    let mut needs = route.needs().peekable();
    if needs.peek().is_some() {
        text.push_str(" needs")?;
    }
    for need in needs {
        write!(text, " {need}")?;
    }
    Ok(())
}
