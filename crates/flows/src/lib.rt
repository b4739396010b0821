// What flows in one step of a storage unit, what that moves, and the watts, the store and the loss that
// come of it. Power is whole watts, positive for discharge; energy is whole joules.

#![tactic(auto)]

mod flows;

pub use flows::{at_grid, flow as flow_of, loss, stored, watts};

// What flows in a step: watts out of the unit, watts into it, or only the idle draw.
#[derive(Clone, Copy)]
pub enum Flow {
    Out(u64),
    In(u64),
    Idle,
}

// A flow with what it moves: joules out of the store or into it; of an idle unit the watts that it
// draws.
#[derive(Clone, Copy)]
pub struct Move {
    pub flow: Flow,
    pub moved: u64,
}
