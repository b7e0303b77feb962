// Plans read from texts, to their numbers.
#![tactic(auto)]

pub mod draft;
pub mod read;
