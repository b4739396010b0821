// One step of every inverter of a site, and its records. The inverters and their curves lie in lent
// bytes as in a run file; what changes from step to step is which of them are on, and the vars last
// requested of them.

#![tactic(auto)]

mod steps;

pub use steps::{own_vars, step, turn_off};
