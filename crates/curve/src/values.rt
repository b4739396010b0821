ghost use Rattle.std.specs.Prelude.{◌≡◌, true, false, ℕ, ◌+◌, ◌≤◌, ◌<◌, nat_abs, length};
ghost use Rattle.std.specs.Int.Signed.{lt_z};
ghost use Rattle.curve.specs.Curve.{point, line_at, curve_at};
ghost use Rattle.curve.specs.Layout.{curve_bytes, x_at, points_at};
ghost use Rattle.curve.specs.Posts.{Usable};

use super::points;

// The first of n points that is right of x; n where none is.
fn segment(bytes: &[u8], place: usize, n: usize, x: i64) -> usize
    requires curve_bytes_in_bounds { place + curve_bytes ≤ length bytes.now }
    requires n_bound { n ≤ 16 }
    ensures within { result ≤ n }
    ensures before { (k : ℕ) → k < result → lt_z x (x_at bytes.now place k) ≡ false }
    ensures found { result < n → lt_z x (x_at bytes.now place result) ≡ true }
{
    for i in 0..n {
        if x < points::x_at(bytes, place, i) as i64 {
            return i;
        }
    }
    n
}

// The straight line from one point to another at x.
fn line(px: i32, py: i32, qx: i32, qy: i32, x: i64) -> i64
    requires px_bound { nat_abs px ≤ 100000000 }
    requires py_bound { nat_abs py ≤ 100000000 }
    requires qx_bound { nat_abs qx ≤ 100000000 }
    requires qy_bound { nat_abs qy ≤ 100000000 }
    requires x_bound { nat_abs x ≤ 100000000 }
    ensures { result ≡ line_at (point px py) (point qx qy) x }
{
    let left = px as i64;
    let low = py as i64;
    let rise = (qy as i64 - low) * (x - left);
    let run = (qx as i64 - left).unsigned_abs();
    low + whole::cut(rise, run)
}

// The value at x of the curve that lies at a place of the bytes.
pub fn value(bytes: &[u8], place: usize, x: i64) -> i64
    requires { Usable bytes.now place }
    ensures { result ≡ curve_at (points_at bytes.now place) x }
{
    let n = points::count(bytes, place);
    let i = segment(bytes, place, n, x);
    if i == 0 {
        return points::y_at(bytes, place, 0) as i64;
    }
    let px = points::x_at(bytes, place, i - 1);
    let py = points::y_at(bytes, place, i - 1);
    if i == n {
        return py as i64;
    }
    let qx = points::x_at(bytes, place, i);
    let qy = points::y_at(bytes, place, i);
    line(px, py, qx, qy, x)
}
