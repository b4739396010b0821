// What a file says, asked of any bytes: an accepted file's units, seconds, settings, a unit of it,
// and the study over its fleet.

#![tactic(auto)]

mod says;
mod studies;

pub use says::{connection_of, head, inverters, seconds, unit, units};
use site::Head;
pub use studies::study;
use unit::Unit;

// A unit's connection: its phases, and its volts from phase to neutral.
#[derive(Clone, Copy)]
pub struct Connection {
    pub phases: u8,
    pub volts: u16,
}
