// The result file's records, laid at a place of a lent room.

#![tactic(auto)]

mod records;
mod roofs;

pub use records::{put_end, put_record};
pub use roofs::put_roof;

// The bytes of a unit's record in a step, of an inverter's, and of the end record.
pub const RECORD_BYTES: usize = 40;

pub const ROOF_RECORD_BYTES: usize = 29;

pub const END_BYTES: usize = 7;
