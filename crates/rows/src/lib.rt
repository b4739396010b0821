// Rows of storage units, as the code carries a fleet: a unit's values and what is kept beside them.

#![tactic(auto)]

mod rows;

pub use rows::{stores, unit_holding};
use unit::Unit;

// What a row keeps beside its unit's values, so that no step works it out again: what the unit draws
// while it idles, its vars then, and the most watts that a request can be held at; the store from
// which on it can give a watt, and that up to which it may have room for what a watt adds; its var
// request, limited, and the most watts that leave room for it; and what its circle leaves beside the
// idle draw.
#[derive(Clone, Copy)]
pub struct Kept {
    pub draw: u32,
    pub vars: i32,
    pub most: u32,
    pub floor: u64,
    pub top: u64,
    pub full: i32,
    pub clear: u32,
    pub rest: u32,
}

#[derive(Clone, Copy)]
pub struct Row {
    pub unit: Unit,
    pub kept: Kept,
}

impl Row {
    // What lies in a row's place before it is filled.
    pub const EMPTY: Row = Row {
        unit: Unit {
            rated: 0,
            reserve: 0,
            stored: 0,
            rating: 0,
            kva: 0,
            dc_loss: 0,
            var_request: 0,
            weight: 0,
            inverter: 0,
            charge: 0,
            discharge: 0,
            priority: 0,
            provide: 0,
            absorb: 0,
            grid_loss: 0,
            link: 0,
        },
        kept: Kept {
            draw: 0,
            vars: 0,
            most: 0,
            floor: 0,
            top: 0,
            full: 0,
            clear: 0,
            rest: 0,
        },
    };
}
