// Big-endian numbers and doubles at a place of lent bytes, read and written. Each read states its
// value as one definition over the width, and each write the whole slice at exit.

#![tactic(auto)]

mod doubles;
mod reads;
mod writes;

pub use doubles::{bits_of, double_of, f64_at, put_f64};
pub use reads::{i32_at, i64_at, u8_at, u16_at, u32_at, u64_at};
pub use writes::{put_i32, put_u8, put_u16, put_u32, put_u64};
