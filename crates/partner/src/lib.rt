// A partner's result beside the run file that it is for: right, or the first field that is wrong.

#![tactic(auto)]

mod alike;
mod judging;
mod places;
mod showing;

pub use judging::judge;
pub use showing::shown;

// The verdict: 0 for a right result; 1 for bytes of the partner's and 2 for a field of the run file,
// with the place of the first and how many there are.
#[derive(Clone, Copy)]
pub struct Verdict {
    pub number: u8,
    pub start: u64,
    pub len: u64,
}

// A field within a step's records: where it begins, and how many bytes it has.
#[derive(Clone, Copy)]
struct Part {
    start: usize,
    size: usize,
}
