// Whole numbers: quotients rounded up and cut toward zero, the sign of a signed number, and the
// largest leg in the kVA circle; and what a refusal is. Nothing here knows of
// batteries.

#![tactic(auto)]

mod calls;
mod circle;
mod quotients;
mod sign;

pub use calls::refused;
pub use circle::{beside, leg, vars_in, watts_in};
pub use quotients::{ceil, cut};
pub use sign::{below_zero32, below_zero64, signed32, signed64};

// A whole refusal: its number, its place and the steps accepted before it.
#[derive(Clone, Copy)]
pub struct Refusal {
    pub number: u8,
    pub place: u64,
    pub steps: u32,
}
