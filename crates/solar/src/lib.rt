// One step of a solar inverter, and the weather it goes by. The curves of an inverter lie in lent
// bytes, as they do in a run file.

#![tactic(auto)]

mod calls;
mod powers;
mod ranges;
mod skies;
mod steps;

pub use calls::step;
pub use ranges::{inverter_in, roof_in};
pub use skies::sky_of;
pub use steps::step_within;

// An inverter: array power in W, S in VA, cut-in and cut-out in parts in 10,000 of S, the limit in
// parts in 10,000 of array power, the vars wanted, and what comes first, watts (0) or vars (1).
#[derive(Clone, Copy)]
pub struct Inverter {
    pub array: u32,
    pub kva: u32,
    pub cut_in: u16,
    pub cut_out: u16,
    pub limit: u16,
    pub var_request: i32,
    pub priority: u8,
}

// The weather as it was written: irradiance in kW/m2 and temperature in degrees Celsius.
#[derive(Clone, Copy)]
pub struct Weather {
    pub irradiance: f64,
    pub temperature: f64,
}

// The same in whole thousandths.
#[derive(Clone, Copy)]
pub struct Sun {
    pub irradiance: u32,
    pub temperature: i32,
}

// What a step gives: whether the inverter is on, watts at the grid, vars, and DC power in W.
#[derive(Clone, Copy)]
pub struct Given {
    pub on: bool,
    pub watts: i32,
    pub vars: i32,
    pub dc: u64,
}
