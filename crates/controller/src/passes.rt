ghost use Rattle.std.specs.Prelude.{◌≡◌, ◌≤◌, length};
ghost use Rattle.members.specs.Ranges.{fleet_of, fleet_linked};
ghost use Rattle.members.specs.Posts.{TotalsOf, Linked, fleet_by};
ghost use Rattle.controller.specs.Posts.{AskedFor, Sound, DonePass, rests_by};
ghost use Rattle.controller.specs.Answers.{pass_answer, pass_leaves};

use super::{Aim, Passed};
use members::Totals;
use rows::Row;
use rules::{Asked, Settings, Wanted};
use whole::Refusal;

// What the requests ask. F is looked at in the state that is not the mode's own alone, and is 0 in others.
fn asked_for(charging: bool, requests: &[i32]) -> Asked
    requires { length requests.now ≤ 64 }
    ensures { AskedFor charging requests.now result }
{
    let signs = members::signs(requests);
    if rules::in_other_state(charging, signs) {
        return members::asked_of(requests);
    }
    signs
}

// P3: a fleet that is not in the mode's own state rests where no unit's own need calls.
fn rests(charging: bool, w: Wanted, a: Asked, units: &[Row], stored: &[u64]) -> bool
    requires in_bounds { 1 ≤ length units.now }
    requires linked { Linked w (fleet_by units.now stored.now) }
    ensures { result ≡ rests_by charging w a (fleet_by units.now stored.now) (length units.now) }
{
    if rules::in_own_state(charging, a) {
        return false;
    }
    members::none_calls(charging, w, units, stored)
}

// One pass over a fleet in its ranges, P1 to P6: its units as rows, their sums, and what each holds.
pub fn pass_within(
    s: Settings,
    measure: i64,
    t: Totals,
    units: &[Row],
    stored: &[u64],
    requests: &mut [i32],
) -> Passed
    requires sound { Sound s measure (fleet_by units.now stored.now) (length requests.old) }
    requires totals_of { TotalsOf units.now t }
    ensures { DonePass s measure (fleet_by units.now stored.now) requests.old requests.new result }
{
    let charging = rules::charges(s.mode);
    let a = asked_for(charging, requests);
    let w = rules::wanted_by(s, measure, a);
    let need = rules::reported(w);
    if rests(charging, w, a, units, stored) {
        return Passed {
            need,
            changed: false,
        };
    }
    if members::is_spent(charging, t.rated, t.reserve, stored) {
        let changed = members::clear(requests);
        return Passed { need, changed };
    }
    if members::all_in_band(s.band, w, units, stored) {
        return Passed {
            need,
            changed: false,
        };
    }
    let changed = members::share_all(charging, s.factor, w, t.weight, units, stored, requests);
    Passed { need, changed }
}

// The same over lists, with rows to fill.
fn pass_with(
    aim: Aim,
    rated: &[u64],
    reserve: &[u64],
    stored: &[u64],
    rating: &[u32],
    weight: &[u16],
    links: &[u32],
    units: &mut [Row],
    requests: &mut [i32],
) -> Passed
    requires sound { Sound aim.settings aim.measure (fleet_linked rated.now reserve.now stored.now rating.now weight.now links.now) (length requests.old) }
    requires units_len { length units.old ≡ length requests.old }
    ensures { DonePass aim.settings aim.measure
        (fleet_linked rated.now reserve.now stored.now rating.now weight.now links.now)
        requests.old requests.new result }
{
    members::fill(rated, reserve, stored, rating, weight, links, units);
    let t = members::summed(units);
    let s = aim.settings;
    pass_within(s, aim.measure, t, units, stored, requests)
}

// The same, over lists.
pub fn pass_over(
    aim: Aim,
    rated: &[u64],
    reserve: &[u64],
    stored: &[u64],
    rating: &[u32],
    weight: &[u16],
    links: &[u32],
    requests: &mut [i32],
) -> Passed
    requires { Sound aim.settings aim.measure (fleet_linked rated.now reserve.now stored.now rating.now weight.now links.now) (length requests.old) }
    ensures { DonePass aim.settings aim.measure
        (fleet_linked rated.now reserve.now stored.now rating.now weight.now links.now)
        requests.old requests.new result }
{
    let n = requests.len();
    let mut units = [Row::EMPTY; 64];
    pass_with(
        aim,
        rated,
        reserve,
        stored,
        rating,
        weight,
        links,
        &mut units[0..n],
        requests,
    )
}

// One pass by watts, of any numbers. Refused are lists of unequal length, none or above 64 (10), values out
// of range (5), and then a request beyond its rating or requests of both signs (10); on a refusal
// the requests are as they were.
pub fn pass(
    s: Settings,
    measure: i64,
    rated: &[u64],
    reserve: &[u64],
    stored: &[u64],
    rating: &[u32],
    weight: &[u16],
    requests: &mut [i32],
) -> Result<Passed, Refusal>
    ensures value { result ≡ pass_answer s measure (fleet_of rated.now reserve.now stored.now rating.now weight.now) requests.old }
    ensures requests_after { requests.new ≡ pass_leaves s measure (fleet_of rated.now reserve.now stored.now rating.now weight.now) requests.old }
{
    let n = requests.len();
    if !members::lengths_in(
        rated.len(),
        reserve.len(),
        stored.len(),
        rating.len(),
        weight.len(),
        n,
    ) {
        return Err(whole::refused(10));
    }
    let fine = rules::settings_in(s) & (s.mode <= 3) & rules::measure_in(measure);
    if !(fine & members::units_in(rated, reserve, stored, rating, weight)) {
        return Err(whole::refused(5));
    }
    if !members::requests_in(rating, requests) {
        return Err(whole::refused(10));
    }
    let links = [0u32; 64];
    let aim = Aim {
        settings: s,
        measure,
    };
    Ok(pass_over(
        aim,
        rated,
        reserve,
        stored,
        rating,
        weight,
        &links[0..n],
        requests,
    ))
}
