ghost use Rattle.std.specs.Prelude.{◌≡◌, ◌+◌, ◌≤◌, length};
ghost use Rattle.curve.specs.Layout.{curve_bytes};
ghost use Rattle.solar.specs.Roof.{inverter_in, roof_in};
ghost use Rattle.solar.specs.Posts.{roof_by};

use super::Inverter;
use curve::Bounds;

// The values of an inverter are in their ranges.
pub fn inverter_in(v: Inverter) -> bool
    ensures { result ≡ inverter_in v }
{
    let vars = v.var_request.unsigned_abs();
    ((1 <= v.array) & (v.array <= 100000000))
        & ((1 <= v.kva) & (v.kva <= 100000000))
        & (v.cut_in <= 10000)
        & (v.cut_out <= v.cut_in)
        & (v.limit <= 10000)
        & (vars <= 100000000)
        & (v.priority <= 1)
}

// So are those of its curves, which lie at two places of bytes.
pub fn roof_in(v: Inverter, bytes: &[u8], warm: usize, efficiency: usize) -> bool
    requires curve_bytes_in_bounds { warm + curve_bytes ≤ length bytes.now }
    requires curve_bytes_in_bounds_2 { efficiency + curve_bytes ≤ length bytes.now }
    ensures { result ≡ roof_in (roof_by v bytes.now warm efficiency) }
{
    let warmth = curve::points_in(
        Bounds {
            x_least: -100000000,
            x_most: 100000000,
            y_least: 0,
            y_most: 20000,
        },
        bytes,
        warm,
    );
    let share = curve::points_in(
        Bounds {
            x_least: 0,
            x_most: 100000000,
            y_least: 0,
            y_most: 10000,
        },
        bytes,
        efficiency,
    );
    inverter_in(v) & warmth & share
}
