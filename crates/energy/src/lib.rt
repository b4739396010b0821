// What limits one step of a storage unit: the energy that watts move and the watts that the store
// allows; the request as the unit holds it, and its vars. Power is whole watts; energy is whole
// joules; efficiencies are parts in 10,000.

#![tactic(auto)]

mod energy;
mod limits;

pub use energy::{added, deliver, removed, take_in};
pub use limits::{held, limited, most, vars};
