// What a run file says of a site: its head, and its units as rows. One step of it: the reading that
// closes the step, the sun and the voltage.

#![tactic(auto)]

use reading::Reading;
use rules::Settings;
use solar::Sun;

// What a file says of a site beside its units: the edition, the seconds of a step, the controller's
// settings and the phase choice.
#[derive(Clone, Copy)]
pub struct Head {
    pub edition: u8,
    pub seconds: u32,
    pub settings: Settings,
    pub phase: u8,
}

// One step: a group of fields that its reading closes, with the sun of its weather, or none, and its
// voltage, or none.
#[derive(Clone, Copy)]
pub struct Step {
    pub reading: Reading,
    pub sun: Sun,
    pub voltage: Option<u16>,
}

// What a step under way has before its reading.
#[derive(Clone, Copy)]
pub struct Due {
    pub sun: Sun,
    pub voltage: Option<u16>,
}
