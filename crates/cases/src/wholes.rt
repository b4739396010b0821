use super::say;
use std::io;

// L: a radius and a side. The leg.
pub fn leg(out: &impl Print, v: &[u8]) -> io::Result<()> {
    if v.len() != 8 {
        return say::unknown(out);
    }
    let leg = whole::leg(octets::u32_at(v, 0), octets::u32_at(v, 4));
    print!(out; "0 {leg}")
}

// U: two numbers. Their quotient rounded up.
pub fn up(out: &impl Print, v: &[u8]) -> io::Result<()> {
    if v.len() != 16 {
        return say::unknown(out);
    }
    let quotient = whole::ceil(octets::u64_at(v, 0), octets::u64_at(v, 8));
    print!(out; "0 {quotient}")
}

// Z: a signed number and a divisor. The quotient cut toward zero.
pub fn cut(out: &impl Print, v: &[u8]) -> io::Result<()> {
    if v.len() != 16 {
        return say::unknown(out);
    }
    let quotient = whole::cut(octets::i64_at(v, 0), octets::u64_at(v, 8));
    print!(out; "0 {quotient}")
}
