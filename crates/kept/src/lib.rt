// The state of a run that is fed, in lent bytes: whether they are a state, and its parts read and
// written.

#![tactic(auto)]

mod numbers;
mod pieces;
mod stands;
mod tests;

use fields::State;
pub use numbers::{known, marked, put_top, stop};
pub use pieces::{copy, zero};
use site::Due;
pub use stands::{load, load_on, load_vars, put_stands};
pub use tests::{begun_at, well};

// The bytes of a state, and where its tail, what stands, the flags, the
// vars last requested and the site part begin.
pub const SIZE: usize = 24071;

pub const TAIL: usize = 27;

pub const HELD: usize = 221;

pub const FLAGS: usize = 989;

pub const VARS: usize = 1053;

pub const SITE: usize = 1565;

// The bytes of a tail and of a site part at most, and how far a run has come at most beside its steps.
const TAIL_MOST: u8 = 194;

const SITE_MOST: u16 = 22506;

const PLACE_MOST: u64 = 22523;

// What is kept beside lists: the place, the state between fields, the bytes of the site part and of
// the tail, and what the step under way has so far.
#[derive(Clone, Copy)]
pub struct Mark {
    pub place: u64,
    pub state: State,
    pub site: usize,
    pub tail: usize,
    pub due: Due,
}
