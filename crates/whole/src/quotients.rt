ghost use Rattle.std.specs.Prelude.{◌≡◌};
ghost use Rattle.whole.specs.Quotient.{ceil, cut};

// a / b rounded up; 0 where b is 0.
pub fn ceil(a: u64, b: u64) -> u64
    ensures { result ≡ ceil a b }
{
    if b == 0 {
        return 0;
    }
    let q = a / b;
    if a % b == 0 { q } else { q + 1 }
}

// z / b cut toward zero; 0 where b is 0.
pub fn cut(z: i64, b: u64) -> i64
    ensures { result ≡ cut z b }
{
    if b == 0 {
        return 0;
    }
    let size = z.unsigned_abs() / b;
    super::signed64(super::below_zero64(z), size)
}
