ghost use Rattle.std.specs.Prelude.{◌≡◌, ◌+◌, ◌≤◌, ◌<◌, length};
ghost use Rattle.curve.specs.Layout.{curve_bytes, count_at, x_at, y_at};

// How many points the curve at a place has.
pub fn count(bytes: &[u8], place: usize) -> usize
    requires { place + curve_bytes ≤ length bytes.now }
    ensures { result ≡ count_at bytes.now place }
{
    octets::u8_at(bytes, place) as usize
}

// The x of point i.
pub fn x_at(bytes: &[u8], place: usize, i: usize) -> i32
    requires curve_bytes_in_bounds { place + curve_bytes ≤ length bytes.now }
    requires i_bound { i < 16 }
    ensures { result ≡ x_at bytes.now place i }
{
    octets::i32_at(bytes, place + 1 + 8 * i)
}

// The y of point i.
pub fn y_at(bytes: &[u8], place: usize, i: usize) -> i32
    requires curve_bytes_in_bounds { place + curve_bytes ≤ length bytes.now }
    requires i_bound { i < 16 }
    ensures { result ≡ y_at bytes.now place i }
{
    octets::i32_at(bytes, place + 5 + 8 * i)
}
