// The figures of a season, of an accepted file and a target in place of its own: what the meter shows
// at its least and at its most, with and without the fleet, what the fleet holds at its least, what it
// loses, and how often it is not enough.

#![tactic(auto)]

mod fleets;
mod seasons;
mod walking;

use fleet::Frame;
pub use seasons::peaks;
use site::Due;
use tally::Figures;

// What no step changes: the frame, and whether there is a function and where.
#[derive(Clone, Copy)]
struct Course {
    frame: Frame,
    led: bool,
    function: usize,
}

// The steps so far: what the step under way has, and the figures of those before it.
#[derive(Clone, Copy)]
struct Seen {
    due: Due,
    figures: Figures,
}
