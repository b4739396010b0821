// One pass of the controller over lent lists, and where a fleet settles.
ghost use Rattle.std.specs.Prelude.{◌≡◌};
ghost use Rattle.controller.specs.Answers.{pass_answer, pass_leaves, current_answer, current_leaves};
ghost use Rattle.settling.specs.Answers.{study_answer, study_leaves};
ghost use Rattle.yesbrulka.specs.Calls.{held, left, settings_of, fleet_lent, fleet_joined, PassTold, trial_of, StudyTold};

use controller::Aim;
use rules::Settings;
use settling::Trial;

// One controller pass over lent lists: 0, the requests after it, need and whether a request changed
// (1 or 0); or 10, 5 or 10.
#[unsafe(no_mangle)]
pub extern "C" fn yb_pass(
    mode: u8,
    target: i32,
    band: u32,
    factor: u16,
    measure: i64,
    rated: &[u64],
    reserve: &[u64],
    stored: &[u64],
    rating: &[u32],
    weight: &[u16],
    requests: &mut [i32],
    need: &mut i64,
    changed: &mut u8,
) -> u32
    ensures pass_told { PassTold (pass_answer (settings_of mode target band factor) measure (fleet_lent rated reserve stored rating weight) requests.old) result need changed }
    ensures requests_value { requests.new ≡ pass_leaves (settings_of mode target band factor) measure (fleet_lent rated reserve stored rating weight) requests.old }
{
    let s = Settings {
        mode,
        target,
        band,
        factor,
    };
    match controller::pass(s, measure, rated, reserve, stored, rating, weight, requests) {
        Ok(p) => {
            let wanted = p.need;
            *need = wanted;
            *changed = p.changed as u8;
            0
        }
        Err(r) => r.number as u32,
    }
}

// One pass by current over lent lists, modes 4 and 5, in mA: 0, the requests after it, need and
// whether a request changed (1 or 0); or 10, 5 or 10.
#[unsafe(no_mangle)]
pub extern "C" fn yb_pass_current(
    mode: u8,
    target: i32,
    band: u32,
    factor: u16,
    measure: i64,
    rated: &[u64],
    reserve: &[u64],
    stored: &[u64],
    rating: &[u32],
    weight: &[u16],
    phases: &[u8],
    volts: &[u16],
    requests: &mut [i32],
    need: &mut i64,
    changed: &mut u8,
) -> u32
    ensures pass_told { PassTold (current_answer (settings_of mode target band factor) measure (fleet_joined rated reserve stored rating weight phases volts) (held phases) (held volts) requests.old) result need changed }
    ensures requests_value { requests.new ≡ current_leaves (settings_of mode target band factor) measure (fleet_joined rated reserve stored rating weight phases volts) (held phases) (held volts) requests.old }
{
    let aim = Aim {
        settings: Settings {
            mode,
            target,
            band,
            factor,
        },
        measure,
    };
    match controller::pass_current(
        aim, rated, reserve, stored, rating, weight, phases, volts, requests,
    ) {
        Ok(p) => {
            let wanted = p.need;
            *need = wanted;
            *changed = p.changed as u8;
            0
        }
        Err(r) => r.number as u32,
    }
}

// The settling study over lent lists, from requests of zero: 0, the requests it ends on, whether it
// settled (1 or 0) and the passes that changed a request; or 10 or 5.
#[unsafe(no_mangle)]
pub extern "C" fn yb_settle(
    load: i64,
    target: i32,
    band: u32,
    factor: u16,
    budget: u32,
    rated: &[u64],
    reserve: &[u64],
    stored: &[u64],
    rating: &[u32],
    weight: &[u16],
    requests: &mut [i32],
    settled: &mut u8,
    passes: &mut u32,
) -> u32
    ensures study_told { StudyTold (study_answer (trial_of load target band factor budget) (fleet_lent rated reserve stored rating weight) requests.old) result settled passes }
    ensures requests_value { requests.new ≡ study_leaves (trial_of load target band factor budget) (fleet_lent rated reserve stored rating weight) requests.old }
{
    let settings = Settings {
        mode: 1,
        target,
        band,
        factor,
    };
    let q = Trial {
        settings,
        load,
        budget,
    };
    match settling::settle(q, rated, reserve, stored, rating, weight, requests) {
        Ok(found) => {
            *settled = found.settled as u8;
            *passes = found.passes;
            0
        }
        Err(r) => r.number as u32,
    }
}
