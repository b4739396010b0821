// A storage unit's values and their ranges. Power is whole watts, positive for discharge; energy is
// whole joules; efficiencies are parts in 10,000.

#![tactic(auto)]

mod ranges;

pub use ranges::{
    connection_in, direct_in, edition_in, grid_in, idle_draw, idle_loss, in_edition, limit_in,
    member_in, seconds_in, unit_in,
};

// A unit's values, in the order of the file. Priority 0 is watts, 1 vars; `provide` and `absorb` are
// the most vars either way. The idle loss sits on the DC side, or at the grid. `link` is what an
// ampere of its connection is in watts, 0 where no connection is given.
#[derive(Clone, Copy)]
pub struct Unit {
    pub rated: u64,
    pub reserve: u64,
    pub stored: u64,
    pub rating: u32,
    pub kva: u32,
    pub dc_loss: u32,
    pub var_request: i32,
    pub weight: u16,
    pub inverter: u16,
    pub charge: u16,
    pub discharge: u16,
    pub priority: u8,
    pub provide: u32,
    pub absorb: u32,
    pub grid_loss: u32,
    pub link: u32,
}
