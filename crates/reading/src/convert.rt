ghost use Rattle.std.specs.Prelude.{◌≡◌, ◌+◌, ◌<◌, ◌^◌};
ghost use Rattle.std.specs.Float.{binary64};
ghost use Rattle.std.specs.Float.Ieee.{of_bits};
ghost use Rattle.reading.specs.Conversion.{nearest, watts_of, milli_of};

// n / 2^(places + 1) to the nearest whole number by the tie rule: one place less is cut off, then
// one is added and the sum halved, which sends a tie up. Where the lower neighbour is even, n goes
// in less one, which sends it down and changes nothing else.
fn rounded(n: u64, places: u64) -> u64
    requires n_nonzero { 0 < n }
    requires n_bound { n < 2 ^ 63 }
    requires places_bound { places < 64 }
    ensures { result ≡ nearest n (2 ^ (places + 1)) }
{
    let odd = (n >> places) / 2 % 2;
    (((n - 1 + odd) >> places) + 1) / 2
}

// The whole watts of a kW double, by its bit pattern: sign, exponent's field and digits. A field
// above 1074 is 2^52 kW or more, an infinity or a NaN; one below 1011 is less than half a watt.
pub fn watts_of_bits(bits: u64) -> Option<i32>
    ensures { result ≡ watts_of (of_bits binary64 bits) }
{
    let field = bits / 4503599627370496 % 2048;
    if 1074 < field {
        return None;
    }
    if field < 1011 {
        return Some(0);
    }
    let n = 1000 * (4503599627370496 + bits % 4503599627370496);
    let size = rounded(n, 1074 - field);
    if 100000000 < size {
        return None;
    }
    Some(whole::signed32(9223372036854775808 <= bits, size as u32))
}

// The whole watts of a kW double, any double.
pub fn converted(kw: f64) -> Option<i32>
    ensures { result ≡ watts_of kw }
{
    watts_of_bits(octets::bits_of(kw))
}

// The whole milliamperes of an A double, by its bit pattern: the same conversion, and none below 0.
pub fn milli_of_bits(bits: u64) -> Option<i32>
    ensures { result ≡ milli_of (of_bits binary64 bits) }
{
    let Some(w) = watts_of_bits(bits) else {
        return None;
    };
    if w < 0 {
        return None;
    }
    Some(w)
}

// And of any double.
pub fn milliamperes(amperes: f64) -> Option<i32>
    ensures { result ≡ milli_of amperes }
{
    milli_of_bits(octets::bits_of(amperes))
}
