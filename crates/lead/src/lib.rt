// Voltage-led vars: what leads a step, and the vars that are then requested of a unit or an inverter.

#![tactic(auto)]

mod leading;

pub use leading::{first, kept, lead_at, part, requested};

// What leads a step: whether the site has a function; whether its base is what the circle leaves
// after the watts; whether the step has a voltage, and the curve's value there, in parts in 10,000.
#[derive(Clone, Copy)]
pub struct Lead {
    pub leads: bool,
    pub after: bool,
    pub fresh: bool,
    pub y: i32,
}
