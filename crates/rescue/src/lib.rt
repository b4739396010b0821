// Rescue of a damaged stick: what can be kept of any bytes, and what was changed.

#![tactic(auto)]

mod calls;
mod groups;
mod walking;
mod writing;

pub use calls::{rescue, survey};
use fields::State;

// The bytes of a change in the list.
pub const CHANGE_BYTES: usize = 17;

// The bytes of a reading's field, of a missing one's and of an end field.
const READING_BYTES: usize = 27;

const MISSING_BYTES: usize = 3;

const END_BYTES: usize = 7;

// What the walk goes on over, a field, or a weather, a voltage or both and the reading behind them: the
// state behind them, how many bytes they have, and whether their reading is made missing.
#[derive(Clone, Copy)]
struct Group {
    state: State,
    size: usize,
    lost: bool,
}

// Where the walk ends: the number of what stands there, 0 where the bytes end; the place; the state
// between fields; the bytes kept before it, and the readings made missing.
#[derive(Clone, Copy)]
struct Walk {
    number: u8,
    at: usize,
    state: State,
    kept: usize,
    missing: usize,
}

// What a rescue comes to, rooms aside: the file's length, the output's steps and bytes, and the
// changes.
#[derive(Clone, Copy)]
pub struct Extent {
    pub place: u64,
    pub steps: u32,
    pub output: usize,
    pub changes: usize,
}
