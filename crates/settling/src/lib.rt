// The settling study: where a peak-shaving fleet settles over a fixed load.

#![tactic(auto)]

mod study;

use rules::Settings;
pub use study::{settle, settle_within, trial_in};

// What a study is asked: the settings, of which the mode has no say, the load in watts and the most
// passes.
#[derive(Clone, Copy)]
pub struct Trial {
    pub settings: Settings,
    pub load: i64,
    pub budget: u32,
}

// What a study reports: whether it settled, and the number of passes that changed a request.
#[derive(Clone, Copy)]
pub struct Studied {
    pub settled: bool,
    pub passes: u32,
}
