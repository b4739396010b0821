// One step of a site: the pass on its reading, then one step of every unit, and the step's records.
// The units go through it as rows that are filled once in a season; what changes from step to step
// are three lists, what each unit holds, what it is asked, and the vars last requested of it.

#![tactic(auto)]

mod steps;
mod units;

use lead::Lead;
use members::Totals;
use reading::Reading;
use site::Head;
pub use steps::step;
pub use units::{framed, give, start};

// What no step changes beside the units: what the file says, and the sums over the fleet.
#[derive(Clone, Copy)]
pub struct Frame {
    pub head: Head,
    pub totals: Totals,
}

// One step to be made: its number, its reading, what leads it, and where its records go.
#[derive(Clone, Copy)]
pub struct Moment {
    pub step: u32,
    pub reading: Reading,
    pub lead: Lead,
    pub at: usize,
}
