ghost use Rattle.std.specs.Prelude.{◌≡◌, ◌≤◌, nat_abs, length};
ghost use Rattle.members.specs.Ranges.{fleet_of};
ghost use Rattle.members.specs.Posts.{TotalsOf, fleet_by};
ghost use Rattle.controller.specs.Posts.{Sound};
ghost use Rattle.settling.specs.Study.{shaving, trial_in};
ghost use Rattle.settling.specs.Posts.{DoneTrial, Measured, Trying};
ghost use Rattle.settling.specs.Answers.{study_answer, study_leaves};

use super::{Studied, Trial};
use members::Totals;
use rows::Row;
use rules::Settings;
use whole::Refusal;

// The settings of a study: mode 1, whatever the mode was.
fn shaved(s: Settings) -> Settings
    ensures { result ≡ shaving s }
{
    Settings { mode: 1, ..s }
}

// The settings, the load and the budget of a study are in their ranges.
pub fn trial_in(q: Trial) -> bool
    ensures { result ≡ trial_in q }
{
    let s = q.settings;
    let load = q.load;
    let budget = q.budget;
    rules::settings_in(shaved(s))
        & ((0 <= load) & (load <= 100000000))
        & ((1 <= budget) & (budget <= 10000))
}

// The measure of a study: the load less the sum of requests.
fn measure(load: i64, requests: &[i32]) -> i64
    requires requests_len_bound { length requests.now ≤ 64 }
    requires load_bound { nat_abs load ≤ 100000000 }
    ensures { Measured load requests.now result }
{
    load - members::asked_of(requests).sum
}

// A study of a fleet in its ranges, as rows, with their sums and what each unit holds: passes from
// requests of zero, up to the budget or to the first that changes nothing.
pub fn settle_within(
    q: Trial,
    t: Totals,
    units: &[Row],
    stored: &[u64],
    requests: &mut [i32],
) -> Studied
    requires trying { Trying q (fleet_by units.now stored.now) (length requests.old) }
    requires totals_of { TotalsOf units.now t }
    ensures { DoneTrial q (fleet_by units.now stored.now) (length requests.old) requests.new result }
{
    let given = q.settings;
    let s = shaved(given);
    let load = q.load;
    let budget = q.budget;
    members::clear(requests);
    for passes in 0..budget {
        let m = measure(load, requests);
        let p = controller::pass_within(s, m, t, units, stored, requests);
        if !p.changed {
            return Studied {
                settled: true,
                passes,
            };
        }
    }
    Studied {
        settled: false,
        passes: budget,
    }
}

// The same over lists, with rows to fill.
fn settle_with(
    q: Trial,
    rated: &[u64],
    reserve: &[u64],
    stored: &[u64],
    rating: &[u32],
    weight: &[u16],
    units: &mut [Row],
    requests: &mut [i32],
) -> Studied
    requires trying { Trying q (fleet_of rated.now reserve.now stored.now rating.now weight.now) (length requests.old) }
    requires units_len { length units.old ≡ length requests.old }
    ensures { DoneTrial q (fleet_of rated.now reserve.now stored.now rating.now weight.now) (length requests.old) requests.new result }
{
    let n = units.len();
    let links = [0u32; 64];
    members::fill(rated, reserve, stored, rating, weight, &links[0..n], units);
    let t = members::summed(units);
    settle_within(q, t, units, stored, requests)
}

// The same, over lists.
fn settle_over(
    q: Trial,
    rated: &[u64],
    reserve: &[u64],
    stored: &[u64],
    rating: &[u32],
    weight: &[u16],
    requests: &mut [i32],
) -> Studied
    requires { Trying q (fleet_of rated.now reserve.now stored.now rating.now weight.now) (length requests.old) }
    ensures { DoneTrial q (fleet_of rated.now reserve.now stored.now rating.now weight.now) (length requests.old) requests.new result }
{
    let n = requests.len();
    let mut units = [Row::EMPTY; 64];
    settle_with(
        q,
        rated,
        reserve,
        stored,
        rating,
        weight,
        &mut units[0..n],
        requests,
    )
}

// A study of any numbers, in mode 1 whatever mode the settings have. Refused are lists of unequal
// length, none or above 64 (10) and values out of range (5); on a refusal the requests are as they
// were.
pub fn settle(
    q: Trial,
    rated: &[u64],
    reserve: &[u64],
    stored: &[u64],
    rating: &[u32],
    weight: &[u16],
    requests: &mut [i32],
) -> Result<Studied, Refusal>
    ensures value { result ≡ study_answer q (fleet_of rated.now reserve.now stored.now rating.now weight.now) requests.old }
    ensures requests_after { requests.new ≡ study_leaves q (fleet_of rated.now reserve.now stored.now rating.now weight.now) requests.old }
{
    let n = requests.len();
    if !members::lengths_in(
        rated.len(),
        reserve.len(),
        stored.len(),
        rating.len(),
        weight.len(),
        n,
    ) {
        return Err(whole::refused(10));
    }
    let fine = trial_in(q);
    if !(fine & members::units_in(rated, reserve, stored, rating, weight)) {
        return Err(whole::refused(5));
    }
    Ok(settle_over(q, rated, reserve, stored, rating, weight, requests))
}
