ghost use Rattle.std.specs.Prelude.{◌≡◌, ◌+◌, ◌*◌, ◌≤◌, ◌<◌, length};
ghost use Rattle.std.specs.Int.{w32};
ghost use Rattle.std.proofs.Common.{of_z};
ghost use Rattle.octets.specs.BigEndian.{bytes_of, laid};
ghost use Rattle.curve.specs.Ranges.{points_of};
ghost use Rattle.curve.specs.Layout.{curve_bytes, points_at};

// Lays x and y as point i of the curve at the first byte of the room.
fn put_point(room: &mut [u8], i: usize, x: i32, y: i32)
    requires room_len { length room.old ≡ curve_bytes }
    requires i_bound { i < 16 }
    ensures { room.new ≡ laid (laid room.old (1 + 8 * i) (bytes_of 4 (of_z w32 x))) (5 + 8 * i) (bytes_of 4 (of_z w32 y)) }
{
    octets::put_i32(room, 1 + 8 * i, x);
    octets::put_i32(room, 5 + 8 * i, y);
}

// Lays the points of two lists as a curve's bytes, from the first byte of the room on.
pub fn lay(xs: &[i32], ys: &[i32], room: &mut [u8])
    requires xs_len_bound { length xs.now ≤ 16 }
    requires ys_len { length ys.now ≡ length xs.now }
    requires room_len { length room.old ≡ curve_bytes }
    ensures room_len_2 { length room.new ≡ curve_bytes }
    ensures room_after { points_at room.new 0 ≡ points_of xs.now ys.now }
{
    octets::put_u8(room, 0, xs.len() as u8);
    for i in 0..xs.len() {
        put_point(room, i, xs[i], ys[i]);
    }
}
