ghost use Rattle.std.specs.Prelude.{◌≡◌, ◌+◌, ◌≤◌, length};
ghost use Rattle.std.specs.Int.{w32};
ghost use Rattle.std.proofs.Common.{of_z};
ghost use Rattle.octets.specs.BigEndian.{bytes_of, laid};

// Lays a byte at a place.
pub fn put_u8(s: &mut [u8], at: usize, v: u8)
    requires { at + 1 ≤ length s.old }
    ensures { s.new ≡ laid s.old at (bytes_of 1 v) }
{
    s[at] = v;
}

// Lays a number over two bytes at a place.
pub fn put_u16(s: &mut [u8], at: usize, v: u16)
    requires { at + 2 ≤ length s.old }
    ensures { s.new ≡ laid s.old at (bytes_of 2 v) }
{
    s[at..at + 2].copy_from_slice(&v.to_be_bytes());
}

// Lays a number over four bytes at a place.
pub fn put_u32(s: &mut [u8], at: usize, v: u32)
    requires { at + 4 ≤ length s.old }
    ensures { s.new ≡ laid s.old at (bytes_of 4 v) }
{
    s[at..at + 4].copy_from_slice(&v.to_be_bytes());
}

// Lays a number over eight bytes at a place.
pub fn put_u64(s: &mut [u8], at: usize, v: u64)
    requires { at + 8 ≤ length s.old }
    ensures { s.new ≡ laid s.old at (bytes_of 8 v) }
{
    s[at..at + 8].copy_from_slice(&v.to_be_bytes());
}

// Lays a signed number, two's complement, over four bytes at a place.
pub fn put_i32(s: &mut [u8], at: usize, v: i32)
    requires { at + 4 ≤ length s.old }
    ensures { s.new ≡ laid s.old at (bytes_of 4 (of_z w32 v)) }
{
    put_u32(s, at, v.cast_unsigned());
}
