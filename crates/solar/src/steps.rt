ghost use Rattle.std.specs.Prelude.{◌≡◌, ◌*◌, ◌/◌, ◌≤◌, nat_abs};
ghost use Rattle.curve.specs.Curve.{curve_at};
ghost use Rattle.curve.specs.Layout.{points_at};
ghost use Rattle.curve.specs.Posts.{Usable};
ghost use Rattle.solar.specs.Step.{step_of};
ghost use Rattle.solar.specs.Posts.{roof_by, Roofed, Shining};

use super::{Given, Inverter, Sun, powers};

// DC power of an array under a sun: in the dark none, whatever the temperature's factor is.
fn dc_of(array: u32, bytes: &[u8], warm: usize, s: Sun) -> u64
    requires array_bound { array ≤ 100000000 }
    requires shining { Shining s }
    requires usable { Usable bytes.now warm }
    requires temperature_bound { nat_abs (curve_at (points_at bytes.now warm) s.temperature) ≤ 20000 }
    ensures { result ≡ array * s.irradiance / 1000 * nat_abs (curve_at (points_at bytes.now warm) s.temperature) / 10000 }
{
    if s.irradiance == 0 {
        return 0;
    }
    let factor = powers::share(bytes, warm, s.temperature as i64);
    powers::dc(array, s.irradiance, factor)
}

// One step of an inverter that is in its ranges.
pub fn step_within(
    v: Inverter,
    bytes: &[u8],
    warm: usize,
    efficiency: usize,
    on: bool,
    s: Sun,
) -> Given
    requires roofed { Roofed v bytes.now warm efficiency }
    requires shining { Shining s }
    ensures { result ≡ step_of (roof_by v bytes.now warm efficiency) on s }
{
    let dc = dc_of(v.array, bytes, warm, s);
    if !powers::on_after(v, on, dc) {
        return Given {
            on: false,
            watts: 0,
            vars: 0,
            dc,
        };
    }
    let share = powers::share(bytes, efficiency, powers::load(v.kva, dc));
    let ac = powers::ac(v, share, dc);
    let watts = powers::watts(v, ac);
    let vars = powers::vars(v, watts);
    Given {
        on: true,
        watts: watts as i32,
        vars,
        dc,
    }
}
