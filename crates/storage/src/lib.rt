// One step of a storage unit. Power is whole watts, positive for discharge; energy is whole joules;
// efficiencies are parts in 10,000.

#![tactic(auto)]

mod giving;
mod resting;
mod steps;

pub use giving::{done, kind_of, step_of};
pub use resting::row_of;
pub use steps::{idle_vars, step, step_as, step_within};
pub use unit::{idle_draw, unit_in};

// What becomes of a request, as far as a row tells: the unit idles, gives all of it, takes all of it,
// or the row alone does not tell.
pub const IDLES: u8 = 0;

pub const GIVES: u8 = 1;

pub const TAKES: u8 = 2;

pub const OPEN: u8 = 3;

// What a step gives: watts at the grid, vars, the store after it, and the loss in joules.
#[derive(Clone, Copy)]
pub struct Outcome {
    pub watts: i32,
    pub vars: i32,
    pub stored: u64,
    pub loss: u64,
}
