// Whole fields of a chunk taken into the state of a fed run: how far they go behind the kept tail, the
// run over them, and what is kept afterwards.

#![tactic(auto)]

mod absorbing;
mod feeding;
mod heads;
mod joints;
mod running;
mod tails;

pub use feeding::take_in;
use fields::State;
pub use joints::gone;
use kept::Mark;
pub use running::clear_stands;

// The bytes of the largest field.
const LARGEST: usize = 195;

// The bytes of an end field.
const CLOSING: usize = 7;

// What the run over whole fields goes by: the mark before them, the bytes of the site part, where
// their steps begin, the state that they lead to, and where their records go.
#[derive(Clone, Copy)]
struct Course {
    mark: Mark,
    site: usize,
    head: usize,
    next: State,
    out: usize,
}
