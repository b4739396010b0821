// The season: the run over an accepted file, one step at a time, into a lent room.

#![tactic(auto)]

mod runs;

pub use runs::{room, run, set_out};
