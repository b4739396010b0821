ghost use Rattle.std.specs.Prelude.{◌≡◌, ◌≤◌, nat_abs};
ghost use Rattle.std.specs.Float.{binary64};
ghost use Rattle.std.specs.Float.Ieee.{of_bits};
ghost use Rattle.reading.specs.Conversion.{watts_of, milli_of};
ghost use Rattle.reading.specs.Choice.{larger_of, smaller_of, choice_of, chosen_of, measure_of, current_of, meter_of, usable_of};
ghost use Rattle.reading.specs.Posts.{is_whole, shown_of};

use super::{Phases, Reading};
use whole::Refusal;

fn larger(a: i64, b: i64) -> i64
    ensures { result ≡ larger_of a b }
{
    if a <= b { b } else { a }
}

fn smaller(a: i64, b: i64) -> i64
    ensures { result ≡ smaller_of a b }
{
    if a <= b { a } else { b }
}

// The choice among three powers in whole watts; a phase above 5 counts as 5 here.
fn choice(phase: u8, a: i64, b: i64, c: i64) -> i64
    requires a_bound { nat_abs a ≤ 2147483648 }
    requires b_bound { nat_abs b ≤ 2147483648 }
    requires c_bound { nat_abs c ≤ 2147483648 }
    ensures { result ≡ choice_of phase a b c }
{
    if phase == 0 {
        return a + b + c;
    }
    if phase == 1 {
        return a;
    }
    if phase == 2 {
        return b;
    }
    if phase == 3 {
        return c;
    }
    if phase == 4 {
        return larger(a, larger(b, c));
    }
    smaller(a, smaller(b, c))
}

// The choice among three converted powers or currents, 6 where one was refused.
fn chosen(phase: u8, a: Option<i32>, b: Option<i32>, c: Option<i32>) -> Result<i64, Refusal>
    ensures { result ≡ chosen_of phase a b c }
{
    let Some(x) = a else {
        return Err(whole::refused(6));
    };
    let Some(y) = b else {
        return Err(whole::refused(6));
    };
    let Some(z) = c else {
        return Err(whole::refused(6));
    };
    Ok(choice(phase, x as i64, y as i64, z as i64))
}

// The regulated measure of three powers: each is converted, then one is chosen. Refused are a phase
// above 5 (5) and, whichever phase is asked for, a power that the conversion refuses (6).
pub fn regulated(p: Phases, phase: u8) -> Result<i64, Refusal>
    ensures { result ≡ measure_of p phase }
{
    if 5 < phase {
        return Err(whole::refused(5));
    }
    chosen(
        phase,
        super::converted(p.first),
        super::converted(p.second),
        super::converted(p.third),
    )
}

// The same of three currents.
pub fn current(p: Phases, phase: u8) -> Result<i64, Refusal>
    ensures { result ≡ current_of p phase }
{
    if 5 < phase {
        return Err(whole::refused(5));
    }
    chosen(
        phase,
        super::milliamperes(p.first),
        super::milliamperes(p.second),
        super::milliamperes(p.third),
    )
}

// What the meter shows by three converted powers or currents.
fn shown(phase: u8, a: Option<i32>, b: Option<i32>, c: Option<i32>) -> Option<i64>
    ensures { result ≡ shown_of phase a b c }
{
    if 5 < phase {
        return None;
    }
    chosen(phase, a, b, c).ok()
}

// What the meter shows by a reading.
pub fn metered(r: Reading, phase: u8) -> Option<i64>
    ensures { result ≡ meter_of r phase }
{
    match r {
        Reading::Missing => None,
        Reading::Power(p) => shown(
            phase,
            super::converted(p.first),
            super::converted(p.second),
            super::converted(p.third),
        ),
        Reading::Current(p) => shown(
            phase,
            super::milliamperes(p.first),
            super::milliamperes(p.second),
            super::milliamperes(p.third),
        ),
    }
}

// Whether a power can be used, by its bit pattern: without its sign it is no larger than that of
// the last double that becomes 10^8 W.
pub fn power_fits(bits: u64) -> bool
    ensures { result ≡ is_whole (watts_of (of_bits binary64 bits)) }
{
    bits % 9223372036854775808 <= 4681608360918534586
}

// Whether a current can: the same, and below 0 only what is less than 0.0005, which becomes 0.
pub fn current_fits(bits: u64) -> bool
    ensures { result ≡ is_whole (milli_of (of_bits binary64 bits)) }
{
    if bits < 9223372036854775808 {
        return bits <= 4681608360918534586;
    }
    bits < 13781122946144774652
}

// Whether three powers can be used, by their bit patterns: 0, or 6 where one cannot; and three
// currents.
pub fn powers_refusal(a: u64, b: u64, c: u64) -> u8
    ensures { result ≡ usable_of (watts_of (of_bits binary64 a)) (watts_of (of_bits binary64 b)) (watts_of (of_bits binary64 c)) }
{
    if power_fits(a) & power_fits(b) & power_fits(c) {
        0
    } else {
        6
    }
}

pub fn currents_refusal(a: u64, b: u64, c: u64) -> u8
    ensures { result ≡ usable_of (milli_of (of_bits binary64 a)) (milli_of (of_bits binary64 b)) (milli_of (of_bits binary64 c)) }
{
    if current_fits(a) & current_fits(b) & current_fits(c) {
        0
    } else {
        6
    }
}
