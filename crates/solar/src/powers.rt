ghost use Rattle.std.specs.Prelude.{◌≡◌, ◌*◌, ◌/◌, ◌≤◌, min, pos, nat_abs};
ghost use Rattle.whole.specs.Circle.{watts_in};
ghost use Rattle.curve.specs.Curve.{curve_at};
ghost use Rattle.curve.specs.Layout.{points_at};
ghost use Rattle.curve.specs.Posts.{Usable};
ghost use Rattle.solar.specs.Step.{on_after, limit_of, limited_vars, vars_of};

use super::Inverter;

// The size of a curve's value: no curve of an inverter is below 0 anywhere.
pub fn share(bytes: &[u8], place: usize, x: i64) -> u64
    requires { Usable bytes.now place }
    ensures { result ≡ nat_abs (curve_at (points_at bytes.now place) x) }
{
    curve::value(bytes, place, x).unsigned_abs()
}

// DC power of an array, at an irradiance and by the factor of its temperature.
pub fn dc(array: u32, irradiance: u32, factor: u64) -> u64
    requires array_bound { array ≤ 100000000 }
    requires irradiance_bound { irradiance ≤ 100000000 }
    requires factor_bound { factor ≤ 20000 }
    ensures { result ≡ array * irradiance / 1000 * factor / 10000 }
{
    (array as u64) * (irradiance as u64) / 1000 * factor / 10000
}

// Whether an inverter is on after a step with this DC power.
pub fn on_after(v: Inverter, on: bool, dc: u64) -> bool
    requires { dc ≤ 20000000000000 }
    ensures { result ≡ on_after v on dc }
{
    let power = dc * 10000;
    let s = v.kva as u64;
    if (v.cut_in as u64) * s < power {
        return true;
    }
    if power < (v.cut_out as u64) * s {
        return false;
    }
    on
}

// DC power per kVA: where the efficiency curve is read.
pub fn load(kva: u32, dc: u64) -> i64
    requires le_kva { 1 ≤ kva }
    requires dc_bound { dc ≤ 20000000000000 }
    ensures { result ≡ pos (dc * 1000 / kva) }
{
    (dc * 1000 / (kva as u64)) as i64
}

// AC power, at most the limit.
pub fn ac(v: Inverter, efficiency: u64, dc: u64) -> u32
    requires array_bound { v.array ≤ 100000000 }
    requires limit_bound { v.limit ≤ 10000 }
    requires efficiency_bound { efficiency ≤ 10000 }
    requires dc_bound { dc ≤ 20000000000000 }
    ensures { result ≡ min (dc * efficiency / 10000) (limit_of v) }
{
    let most = (v.array as u64) * (v.limit as u64) / 10000;
    (dc * efficiency / 10000).min(most) as u32
}

// The size of the var request, at most S.
fn limited(v: Inverter) -> u32
    ensures { result ≡ limited_vars v }
{
    v.var_request.unsigned_abs().min(v.kva)
}

// The watts of an AC power: at most S and, under var priority, what the vars leave of the circle.
pub fn watts(v: Inverter, ac: u32) -> u32
    ensures { result ≡ watts_in v.kva v.priority (limited_vars v) ac }
{
    whole::watts_in(v.kva, v.priority, limited(v), ac)
}

// The vars beside the watts: the request's sign, and the smaller of its size and the circle's leg.
pub fn vars(v: Inverter, watts: u32) -> i32
    requires { nat_abs v.var_request ≤ 100000000 }
    ensures { result ≡ vars_of v watts }
{
    let below = whole::below_zero32(v.var_request);
    whole::vars_in(v.kva, below, limited(v), watts)
}
