// Trains, points and the interlocking of one station, and all that can happen there.
#![tactic(auto)]

use interlocking::Request;
use std::fmt;

pub mod can;
pub mod run;
pub mod station;
pub mod step;
pub mod world;

// What can happen: a request, a point that turns, and what trains do. Trains and points go by their numbers; a train that comes in is said with its way (true for up) and its section.
#[derive(Clone, Copy, Debug, PartialEq, Eq)]
pub enum Event {
    Asked(Request),
    Turns(usize),
    Goes(usize),
    Draws(usize),
    Reverses(usize),
    Comes(usize, bool, usize),
    Leaves(usize),
}

// An event in the words of a script.
impl fmt::Display for Event {
    fn fmt<W: fmt::Write>(&self, f: &mut fmt::Formatter<W>) -> fmt::Result {
        match *self {
            Event::Asked(request) => write!(f, "{request}"),
            Event::Turns(q) => write!(f, "turns {q}"),
            Event::Goes(i) => write!(f, "goes {i}"),
            Event::Draws(i) => write!(f, "draws {i}"),
            Event::Reverses(i) => write!(f, "reverses {i}"),
            Event::Comes(i, true, x) => write!(f, "comes {i} up {x}"),
            Event::Comes(i, false, x) => write!(f, "comes {i} down {x}"),
            Event::Leaves(i) => write!(f, "leaves {i}"),
        }
    }
}
