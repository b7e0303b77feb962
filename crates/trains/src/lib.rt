// Trains: the sections that they stand in, what they find before them, and what one of them can do.
#![tactic(auto)]

pub mod fleet;
pub mod track;
pub mod train;
