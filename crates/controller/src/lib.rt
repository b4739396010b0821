// The controller: one pass over a fleet. Requests are whole watts, positive for discharge.

#![tactic(auto)]

mod current;
mod passes;

pub use current::pass_current;
pub use passes::{pass, pass_within};
use rules::Settings;

// What a pass goes by: the settings, and the measure.
#[derive(Clone, Copy)]
pub struct Aim {
    pub settings: Settings,
    pub measure: i64,
}

// What a pass reports: the need after rule 2, by current that of rule 1, and whether a request changed.
#[derive(Clone, Copy)]
pub struct Passed {
    pub need: i64,
    pub changed: bool,
}
