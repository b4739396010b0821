ghost use Rattle.std.specs.Prelude.{◌≡◌, ◌*◌, ◌/◌, ◌≤◌, cond, nat_abs, ◌+ℤ◌};
ghost use Rattle.rules.specs.Rules.{charges, plain_need, in_watts, band_in_watts, no_call, unable, in_band, share_of, limited, with_mode};
ghost use Rattle.rules.specs.Posts.{wanted_by, need_by, reported_by, Modest};

use super::{Asked, Settings, Wanted};

// Whether a mode charges.
pub fn charges(mode: u8) -> bool
    ensures { result ≡ charges mode }
{
    (mode == 3) | (mode == 5)
}

// P1: measure less target, or in mode 2 measure and target.
pub fn plain_need(s: Settings, measure: i64) -> i64
    requires { nat_abs measure ≤ 200000000000 }
    ensures { result ≡ plain_need s measure }
{
    let target = s.target as i64;
    if s.mode == 2 {
        measure + target
    } else {
        measure - target
    }
}

// Whether the fleet is in the state that is not the mode's own.
pub fn in_other_state(charging: bool, a: Asked) -> bool
    ensures { result ≡ cond charging a.above a.below }
{
    if charging { a.above } else { a.below }
}

// Whether the fleet is in the mode's own state.
pub fn in_own_state(charging: bool, a: Asked) -> bool
    ensures { result ≡ cond charging a.below a.above }
{
    if charging { a.below } else { a.above }
}

// P2: F is added where the fleet is in the other state.
fn with_sum(other: bool, plain: i64, sum: i64) -> i64
    requires plain_bound { nat_abs plain ≤ 300000000000 }
    requires sum_bound { nat_abs sum ≤ 1000000000000 }
    ensures { result ≡ cond other (plain +ℤ sum) plain }
{
    if other { plain + sum } else { plain }
}

// P1 and P2: where each unit's own need comes from.
pub fn wanted_by(s: Settings, measure: i64, a: Asked) -> Wanted
    requires { nat_abs measure ≤ 200000000000 }
    ensures { result ≡ wanted_by s measure a }
{
    Wanted {
        current: 4 <= s.mode,
        plain: plain_need(s, measure),
        other: in_other_state(charges(s.mode), a),
        sum: a.sum,
    }
}

// P10: by current, a need's watts at a unit.
fn in_watts(current: bool, link: u32, need: i64) -> i64
    requires link_bound { link ≤ 120000 }
    requires need_bound { nat_abs need ≤ 202147483648 }
    ensures { result ≡ in_watts current link need }
{
    if !current {
        return need;
    }
    whole::cut(need * (link as i64), 1000)
}

// P2 and P10: a unit's own need.
pub fn own_need(w: Wanted, link: u32) -> i64
    requires modest { Modest w }
    requires link_bound { link ≤ 120000 }
    ensures value { result ≡ need_by w link }
    ensures result_bound { nat_abs result ≤ 400000000000 }
{
    with_sum(w.other, in_watts(w.current, link, w.plain), w.sum)
}

// P10: a unit's own band.
pub fn own_band(current: bool, link: u32, band: u32) -> u64
    requires { link ≤ 120000 }
    ensures { result ≡ band_in_watts current link band }
{
    if !current {
        return band as u64;
    }
    (band as u64) * (link as u64) / 1000
}

// P7: the need that is reported, by current without F.
pub fn reported(w: Wanted) -> i64
    requires { Modest w }
    ensures { result ≡ reported_by w }
{
    with_sum(w.other & !w.current, w.plain, w.sum)
}

// P3: a need that does not call: at or below 0 discharging, at or above 0 charging.
pub fn no_call(charging: bool, need: i64) -> bool
    ensures { result ≡ no_call charging need }
{
    if charging { 0 <= need } else { need <= 0 }
}

// Nothing above the reserve, or, charging, no room.
pub fn unable(charging: bool, rated: u64, reserve: u64, stored: u64) -> bool
    ensures { result ≡ unable charging rated reserve stored }
{
    if charging {
        stored == rated
    } else {
        stored <= reserve
    }
}

// P5: twice the need's size is within the band.
pub fn in_band(band: u64, need: i64) -> bool
    requires { nat_abs need ≤ 10000000000000 }
    ensures { result ≡ in_band band need }
{
    2 * need.unsigned_abs() <= band
}

// P6: the size of a unit's share, from the size of its own need.
pub fn share_size(factor: u16, size: u64, weight: u16, weights: u64) -> u64
    requires size_bound { size ≤ 400000000000 }
    requires factor_bound { factor ≤ 1000 }
    requires weight_bound { weight ≤ 10000 }
    requires le_weights { 1 ≤ weights }
    requires weights_bound { weights ≤ 640000 }
    ensures { result ≡ size * weight * factor / (weights * 1000) }
{
    size * (weight as u64) * (factor as u64) / (weights * 1000)
}

// P6: a unit's share of the need.
pub fn share(factor: u16, need: i64, weight: u16, weights: u64) -> i64
    requires need_bound { nat_abs need ≤ 400000000000 }
    requires factor_bound { factor ≤ 1000 }
    requires weight_bound { weight ≤ 10000 }
    requires weights_bound { weights ≤ 640000 }
    ensures { result ≡ share_of factor need weight weights }
{
    if weights == 0 {
        return 0;
    }
    let size = share_size(factor, need.unsigned_abs(), weight, weights);
    whole::signed64(whole::below_zero64(need), size)
}

// P6: z limited to the rating in size, and 0 where that is against the mode.
fn directed(charging: bool, rating: u32, z: i64) -> i32
    requires { rating ≤ 100000000 }
    ensures { result ≡ with_mode charging (limited rating z) }
{
    let negative = whole::below_zero64(z);
    if charging != negative {
        return 0;
    }
    let size = z.unsigned_abs();
    if size <= rating as u64 {
        return whole::signed32(charging, size as u32);
    }
    whole::signed32(charging, rating)
}

// P6: a request and its share, in the direction of the mode.
pub fn request_after(charging: bool, rating: u32, request: i32, share: i64) -> i32
    requires rating_bound { rating ≤ 100000000 }
    requires share_bound { nat_abs share ≤ 4000000000000000000 }
    ensures { result ≡ with_mode charging (limited rating (request +ℤ share)) }
{
    let z = (request as i64) + share;
    if charging {
        return directed(true, rating, z);
    }
    directed(false, rating, z)
}
