ghost use Rattle.std.specs.Prelude.{◌≡◌, ◌+◌, ◌≤◌, length};
ghost use Rattle.std.specs.Float.{binary64};
ghost use Rattle.std.specs.Float.Ieee.{of_bits, to_bits};
ghost use Rattle.octets.specs.BigEndian.{be, bytes_of, laid};

// The double of a bit pattern, any pattern: every NaN's gives the NaN.
pub fn double_of(bits: u64) -> f64
    ensures { result ≡ of_bits binary64 bits }
{
    if 9218868437227405312 < bits % 9223372036854775808 {
        return 0.0 / 0.0;
    }
    f64::from_bits(bits)
}

// The bit pattern of a double, any double: of a NaN the quiet one with its sign clear.
pub fn bits_of(x: f64) -> u64
    ensures { result ≡ to_bits binary64 x }
{
    if x != x {
        return 9221120237041090560;
    }
    f64::to_bits(x)
}

// The double in eight bytes at a place.
pub fn f64_at(s: &[u8], at: usize) -> f64
    requires { at + 8 ≤ length s.now }
    ensures { result ≡ of_bits binary64 (be 8 s.now at) }
{
    double_of(super::u64_at(s, at))
}

// Lays a double, by its bits, over eight bytes at a place.
pub fn put_f64(s: &mut [u8], at: usize, x: f64)
    requires { at + 8 ≤ length s.old }
    ensures { s.new ≡ laid s.old at (bytes_of 8 (to_bits binary64 x)) }
{
    super::put_u64(s, at, bits_of(x));
}
