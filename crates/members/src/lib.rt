// A fleet as a pass sees it, in lists and in rows: its ranges, its sums, and each unit's next request.
// Requests are whole watts, positive for discharge.

#![tactic(auto)]

mod calls;
mod filling;
mod ranges;
mod shares;
mod sized;
mod sums;

pub use calls::{all_in_band, none_calls};
pub use filling::{fill, link_all};
pub use ranges::{connections_in, lengths_in, requests_in, units_in};
pub use shares::{clear, share_all};
pub use sums::{asked as asked_of, is_spent, signs, summed};

// The sums over a fleet that no step changes.
#[derive(Clone, Copy)]
pub struct Totals {
    pub rated: u64,
    pub reserve: u64,
    pub weight: u64,
}
