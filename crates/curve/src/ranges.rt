ghost use Rattle.std.specs.Prelude.{◌≡◌, ◌&&◌, ◌||◌, ℕ, ◌+◌, ◌-◌, ◌*◌, ◌≤◌, ◌<◌, eqb, length};
ghost use Rattle.std.specs.Int.Signed.{lt_z};
ghost use Rattle.whole.specs.Over.{all_of};
ghost use Rattle.octets.specs.BigEndian.{be};
ghost use Rattle.curve.specs.Curve.{point};
ghost use Rattle.curve.specs.Ranges.{in_bounds, point_in, points_in};
ghost use Rattle.curve.specs.Layout.{curve_bytes, x_at, points_from, points_at, curve_in};

use super::{Bounds, points};

// x and y are within the bounds.
fn in_bounds(b: Bounds, x: i32, y: i32) -> bool
    ensures { result ≡ in_bounds b (point x y) }
{
    ((b.x_least <= x) & (x <= b.x_most)) & ((b.y_least <= y) & (y <= b.y_most))
}

// Point i is right of the one before it; the first has none before it.
fn rises(bytes: &[u8], place: usize, i: usize) -> bool
    requires curve_bytes_in_bounds { place + curve_bytes ≤ length bytes.now }
    requires i_bound { i < 16 }
    ensures { result ≡ (eqb i 0 || lt_z (x_at bytes.now place (i - 1)) (x_at bytes.now place i)) }
{
    if i == 0 {
        return true;
    }
    points::x_at(bytes, place, i - 1) < points::x_at(bytes, place, i)
}

// Each of n points is within the bounds and right of the one before it.
fn each_in(b: Bounds, bytes: &[u8], place: usize, n: usize) -> bool
    requires curve_bytes_in_bounds { place + curve_bytes ≤ length bytes.now }
    requires n_bound { n ≤ 16 }
    ensures { result ≡ all_of n (point_in b (points_from n 0 bytes.now place)) }
{
    (0..n).all(|i| {
        let x = points::x_at(bytes, place, i);
        let y = points::y_at(bytes, place, i);
        in_bounds(b, x, y) & rises(bytes, place, i)
    })
}

// The points of the curve at a place are as they must be.
pub fn points_in(b: Bounds, bytes: &[u8], place: usize) -> bool
    requires { place + curve_bytes ≤ length bytes.now }
    ensures { result ≡ points_in b (points_at bytes.now place) }
{
    let n = points::count(bytes, place);
    if !((2 <= n) & (n <= 16)) {
        return false;
    }
    each_in(b, bytes, place, n)
}

// The places past the first n points hold 0.
fn rest_in(bytes: &[u8], place: usize, n: usize) -> bool
    requires curve_bytes_in_bounds { place + curve_bytes ≤ length bytes.now }
    requires n_bound { n ≤ 16 }
    ensures { result ≡ all_of (16 - n) (λ (i : ℕ). eqb (be 8 bytes.now (place + 1 + 8 * (n + i))) 0) }
{
    (n..16).all(|i| octets::u64_at(bytes, place + 1 + 8 * i) == 0)
}

// So are they, and the places past them hold 0.
pub fn curve_in(b: Bounds, bytes: &[u8], place: usize) -> bool
    requires { place + curve_bytes ≤ length bytes.now }
    ensures { result ≡ curve_in b bytes.now place }
{
    if !points_in(b, bytes, place) {
        return false;
    }
    let n = points::count(bytes, place);
    rest_in(bytes, place, n)
}
