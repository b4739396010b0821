ghost use Rattle.std.specs.Prelude.{◌≡◌, ◌+◌, ◌-◌, ◌≤◌, length, replicate};
ghost use Rattle.std.proofs.Math.Seq.{slice};
ghost use Rattle.octets.specs.BigEndian.{laid};
ghost use Rattle.kept.specs.Formed.{clear};

// Lays the bytes from one place up to another at a place. One by one: that becomes a memcpy, and
// `copy_from_slice` a memmove, which the archive has not.
pub fn copy(s: &mut [u8], at: usize, bytes: &[u8], from: usize, to: usize)
    requires from_le_to { from ≤ to }
    requires to_in_bounds { to ≤ length bytes.now }
    requires from_in_bounds { at + (to - from) ≤ length s.old }
    ensures { s.new ≡ laid s.old at (slice from to bytes.now) }
{
    for i in 0..to - from {
        s[at + i] = bytes[from + i];
    }
}

// Lays 0 over all bytes from one place up to another.
pub fn zero(s: &mut [u8], from: usize, to: usize)
    requires from_le_to { from ≤ to }
    requires to_in_bounds { to ≤ length s.old }
    ensures { s.new ≡ laid s.old from (replicate (to - from) 0) }
{
    s[from..to].fill(0);
}

// The bytes from one place up to another are 0. All are looked at, since the compiler then takes
// sixteen at once; with `all`, which stops at the first that is not 0, it would take one at a time.
pub fn is_clear(s: &[u8], from: usize, to: usize) -> bool
    requires from_le_to { from ≤ to }
    requires to_in_bounds { to ≤ length s.now }
    ensures { result ≡ clear s.now from to }
{
    let mut ok = true;
    for i in 0..to - from {
        ok = ok & (s[from + i] == 0);
    }
    ok
}
