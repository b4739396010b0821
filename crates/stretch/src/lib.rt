// The steps in a stretch of a run file, one field at a time: what stands, and the records, into a lent
// room.

#![tactic(auto)]

mod halves;
mod stretches;

use fleet::Frame;
pub use halves::begin;
use site::Due;
pub use stretches::{along, on_field};

// A step under way: its number, and what it has so far.
#[derive(Clone, Copy)]
pub struct Way {
    pub step: u32,
    pub due: Due,
}

// Where a stretch goes on: what no step changes, where the inverters lie in the bytes of the site,
// whether there is a function and where, where to read, where to write, and the step under way.
#[derive(Clone, Copy)]
pub struct Track {
    pub frame: Frame,
    pub first: usize,
    pub led: bool,
    pub function: usize,
    pub at: usize,
    pub out: usize,
    pub way: Way,
}
