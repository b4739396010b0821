// What a pass goes by: the settings with their ranges, and its rules over plain numbers: the need, and
// what one unit's request becomes. Requests are whole watts, positive for discharge.

#![tactic(auto)]

mod ranges;
mod rules;

pub use ranges::{current_in, measure_in, settings_in};
pub use rules::{
    charges, in_band, in_other_state, in_own_state, no_call, own_band, own_need, plain_need,
    reported, request_after, share, share_size, unable, wanted_by,
};

// What the controller is set to. Mode 1 shaves the peak, 2 supports, 3 fills the valley; 4 and 5 are
// 1 and 3 by current. Target -10^8 to 10^8 and band 0 to 2 * 10^8, in W or by current in mA; factor
// 1 to 1,000 thousandths.
#[derive(Clone, Copy)]
pub struct Settings {
    pub mode: u8,
    pub target: i32,
    pub band: u32,
    pub factor: u16,
}

// What a fleet's requests say: F, and whether some are above and some below 0.
#[derive(Clone, Copy)]
pub struct Asked {
    pub sum: i64,
    pub above: bool,
    pub below: bool,
}

// Where each unit's own need comes from: the need, in mA by current; and F, which is added to a
// unit's own need where the fleet is in the state that is not the mode's own.
#[derive(Clone, Copy)]
pub struct Wanted {
    pub current: bool,
    pub plain: i64,
    pub other: bool,
    pub sum: i64,
}
