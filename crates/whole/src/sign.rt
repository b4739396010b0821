ghost use Rattle.std.specs.Prelude.{◌≡◌, ◌<◌, ◌≤◌, ◌^◌, nat_abs};
ghost use Rattle.std.specs.Int.{w32, w64};
ghost use Rattle.std.proofs.Common.{SFits};
ghost use Rattle.whole.specs.Signed.{negative, signed};

// Whether x is below 0.
pub fn below_zero32(x: i32) -> bool
    ensures { result ≡ negative x }
{
    x < 0
}

// Whether x is below 0.
pub fn below_zero64(x: i64) -> bool
    ensures { result ≡ negative x }
{
    x < 0
}

// The number of a sign and a size that an i32 holds.
pub fn signed32(negative: bool, size: u32) -> i32
    requires { SFits w32 (signed negative size) }
    ensures { result ≡ signed negative size }
{
    if !negative {
        return size as i32;
    }
    if size == 0 {
        return 0;
    }
    -1 - ((size - 1) as i32)
}

// The number of a sign and a size that an i64 holds.
pub fn signed64(negative: bool, size: u64) -> i64
    requires { SFits w64 (signed negative size) }
    ensures { result ≡ signed negative size }
{
    if !negative {
        return size as i64;
    }
    if size == 0 {
        return 0;
    }
    -1 - ((size - 1) as i64)
}
