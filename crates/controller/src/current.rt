ghost use Rattle.std.specs.Prelude.{◌≡◌, length};
ghost use Rattle.members.specs.Ranges.{fleet_linked, links_of};
ghost use Rattle.controller.specs.Posts.{Sound, DonePass};
ghost use Rattle.controller.specs.Answers.{current_answer, current_leaves};

use super::{Aim, Passed, passes};
use whole::Refusal;

// A pass by current over a fleet in its ranges, with a list to fill with what an ampere is in watts.
fn pass_linked(
    aim: Aim,
    rated: &[u64],
    reserve: &[u64],
    stored: &[u64],
    rating: &[u32],
    weight: &[u16],
    phases: &[u8],
    volts: &[u16],
    requests: &mut [i32],
) -> Passed
    requires sound { Sound aim.settings aim.measure
        (fleet_linked rated.now reserve.now stored.now rating.now weight.now (links_of phases.now volts.now)) (length requests.old) }
    requires phases_len { length phases.now ≡ length requests.old }
    requires volts_len { length volts.now ≡ length requests.old }
    ensures { DonePass aim.settings aim.measure
        (fleet_linked rated.now reserve.now stored.now rating.now weight.now (links_of phases.now volts.now))
        requests.old requests.new result }
{
    let n = requests.len();
    let mut links = [0u32; 64];
    members::link_all(phases, volts, &mut links[0..n]);
    passes::pass_over(
        aim,
        rated,
        reserve,
        stored,
        rating,
        weight,
        &links[0..n],
        requests,
    )
}

// One pass by current, of any numbers. Refused are lists of unequal length, none or above 64 (10),
// values out of range (5), and then a request beyond its rating or requests of both signs (10); on a
// refusal the requests are as they were.
pub fn pass_current(
    aim: Aim,
    rated: &[u64],
    reserve: &[u64],
    stored: &[u64],
    rating: &[u32],
    weight: &[u16],
    phases: &[u8],
    volts: &[u16],
    requests: &mut [i32],
) -> Result<Passed, Refusal>
    ensures value { result ≡ current_answer aim.settings aim.measure
        (fleet_linked rated.now reserve.now stored.now rating.now weight.now (links_of phases.now volts.now))
        phases.now volts.now requests.old }
    ensures requests_after { requests.new ≡ current_leaves aim.settings aim.measure
        (fleet_linked rated.now reserve.now stored.now rating.now weight.now (links_of phases.now volts.now))
        phases.now volts.now requests.old }
{
    let n = requests.len();
    let five = members::lengths_in(
        rated.len(),
        reserve.len(),
        stored.len(),
        rating.len(),
        weight.len(),
        n,
    );
    if !(five & (phases.len() == n) & (volts.len() == n)) {
        return Err(whole::refused(10));
    }
    let s = aim.settings;
    let fine = rules::settings_in(s) & (4 <= s.mode) & rules::current_in(aim.measure);
    let units = members::units_in(rated, reserve, stored, rating, weight);
    if !(fine & units & members::connections_in(phases, volts)) {
        return Err(whole::refused(5));
    }
    if !members::requests_in(rating, requests) {
        return Err(whole::refused(10));
    }
    Ok(pass_linked(
        aim, rated, reserve, stored, rating, weight, phases, volts, requests,
    ))
}
