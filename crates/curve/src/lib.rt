// Curves of 2 to 16 points with rising x, as they lie in bytes: the value anywhere, the tests of the
// bytes, and lists laid as such bytes.

#![tactic(auto)]

mod laying;
mod points;
mod ranges;
mod values;

pub use laying::lay;
pub use ranges::{curve_in, points_in};
pub use values::value;

// The bounds of a curve's x and y.
#[derive(Clone, Copy)]
pub struct Bounds {
    pub x_least: i32,
    pub x_most: i32,
    pub y_least: i32,
    pub y_most: i32,
}
