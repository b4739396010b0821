ghost use Rattle.std.specs.Prelude.{◌≡◌, ◌&&◌, ◌≤◌, eqb, length};
ghost use Rattle.whole.specs.Interval.{between};
ghost use Rattle.curve.specs.Ranges.{points_of};
ghost use Rattle.curve.specs.Layout.{points_at};
ghost use Rattle.solar.specs.Posts.{roof_by, lit_in};
ghost use Rattle.solar.specs.Answers.{lists_of, lit_of, roof_of};

use super::{Given, Inverter, Weather, ranges, skies, steps};
use whole::Refusal;

// The lists of a curve have one length, 2 to 16.
fn lengths_in(xs: usize, ys: usize) -> bool
    ensures { result ≡ (between 2 16 xs && eqb ys xs) }
{
    ((2 <= xs) & (xs <= 16)) & (ys == xs)
}

// Lays two curves, one right behind the other.
fn lay_both(warm_x: &[i32], warm_y: &[i32], eff_x: &[i32], eff_y: &[i32], room: &mut [u8])
    requires warm_x_len_bound { length warm_x.now ≤ 16 }
    requires warm_y_len { length warm_y.now ≡ length warm_x.now }
    requires eff_x_len_bound { length eff_x.now ≤ 16 }
    requires eff_y_len { length eff_y.now ≡ length eff_x.now }
    requires room_len { length room.old ≡ 258 }
    ensures room_len_2 { length room.new ≡ 258 }
    ensures room_after { points_at room.new 0 ≡ points_of warm_x.now warm_y.now }
    ensures room_after_2 { points_at room.new 129 ≡ points_of eff_x.now eff_y.now }
{
    curve::lay(warm_x, warm_y, &mut room[0..129]);
    curve::lay(eff_x, eff_y, &mut room[129..258]);
}

// One step by the two curves that lie in bytes: refused are values out of range (5), and a weather
// that cannot be used (6).
fn step_in(v: Inverter, bytes: &[u8], on: u8, w: Weather) -> Result<Given, Refusal>
    requires { length bytes.now ≡ 258 }
    ensures { result ≡ lit_in (roof_by v bytes.now 0 129) on w }
{
    if !(ranges::roof_in(v, bytes, 0, 129) & (on <= 1)) {
        return Err(whole::refused(5));
    }
    let Some(s) = skies::sky_of(w) else {
        return Err(whole::refused(6));
    };
    Ok(steps::step_within(v, bytes, 0, 129, on == 1, s))
}

// The same by two curves of lists.
fn step_over(
    v: Inverter,
    warm_x: &[i32],
    warm_y: &[i32],
    eff_x: &[i32],
    eff_y: &[i32],
    on: u8,
    w: Weather,
) -> Result<Given, Refusal>
    requires warm_x_len_bound { length warm_x.now ≤ 16 }
    requires warm_y_len { length warm_y.now ≡ length warm_x.now }
    requires eff_x_len_bound { length eff_x.now ≤ 16 }
    requires eff_y_len { length eff_y.now ≡ length eff_x.now }
    ensures { result ≡ lit_in (roof_of v (lists_of warm_x.now warm_y.now eff_x.now eff_y.now)) on w }
{
    let mut room = [0u8; 258];
    lay_both(warm_x, warm_y, eff_x, eff_y, &mut room);
    step_in(v, &room, on, w)
}

// One step of any numbers and lists: refused are lists of a curve that differ in length or have not
// 2 to 16 points (10), values out of range (5), and a weather that cannot be used (6).
pub fn step(
    v: Inverter,
    warm_x: &[i32],
    warm_y: &[i32],
    eff_x: &[i32],
    eff_y: &[i32],
    on: u8,
    w: Weather,
) -> Result<Given, Refusal>
    ensures { result ≡ lit_of v (lists_of warm_x.now warm_y.now eff_x.now eff_y.now) on w }
{
    let warm = lengths_in(warm_x.len(), warm_y.len());
    let eff = lengths_in(eff_x.len(), eff_y.len());
    if !(warm & eff) {
        return Err(whole::refused(10));
    }
    step_over(v, warm_x, warm_y, eff_x, eff_y, on, w)
}
