// A reading of the meter: three phase powers in kW or three currents in A, as doubles, or none. Each
// becomes whole watts or milliamperes or is refused; then one measure is chosen of the three.

#![tactic(auto)]

mod choosing;
mod convert;
mod kilowatts;

pub use choosing::{
    current, current_fits, currents_refusal, metered, power_fits, powers_refusal, regulated,
};
pub use convert::{converted, milli_of_bits, milliamperes, watts_of_bits};
pub use kilowatts::{kw, kw_bits};

// The powers of the three phases in kW, or their currents in A, as the meter wrote them.
#[derive(Clone, Copy)]
pub struct Phases {
    pub first: f64,
    pub second: f64,
    pub third: f64,
}

// A step's reading: the meter wrote nothing, or three powers, or three currents.
#[derive(Clone, Copy)]
pub enum Reading {
    Missing,
    Power(Phases),
    Current(Phases),
}
