// One step of a unit, or of an inverter, that a voltage leads.

#![tactic(auto)]

mod roofs;
mod units;

pub use roofs::light;
use solar::Given;
use storage::Outcome;
pub use units::give;

// What a led step of a unit gives, and the vars kept as last requested.
#[derive(Clone, Copy)]
pub struct Led {
    pub outcome: Outcome,
    pub vars: i32,
}

// The same of an inverter.
#[derive(Clone, Copy)]
pub struct Shone {
    pub given: Given,
    pub vars: i32,
}
