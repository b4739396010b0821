use super::say;
use reading::Phases;
use std::io;

// W: a kW double. The watts.
pub fn watts(out: &impl Print, v: &[u8]) -> io::Result<()> {
    if v.len() != 8 {
        return say::unknown(out);
    }
    match reading::converted(octets::f64_at(v, 0)) {
        Some(watts) => print!(out; "0 {watts}"),
        None => say::refusal(out, 6),
    }
}

// M: a phase choice and three kW doubles. The measure.
pub fn measure(out: &impl Print, v: &[u8]) -> io::Result<()> {
    if v.len() != 25 {
        return say::unknown(out);
    }
    let phase = octets::u8_at(v, 0);
    let p = Phases {
        first: octets::f64_at(v, 1),
        second: octets::f64_at(v, 9),
        third: octets::f64_at(v, 17),
    };
    match reading::regulated(p, phase) {
        Ok(watts) => print!(out; "0 {watts}"),
        Err(r) => say::refusal(out, r.number),
    }
}

// K: watts. The bits of the kW double.
pub fn kilowatts(out: &impl Print, v: &[u8]) -> io::Result<()> {
    if v.len() != 4 {
        return say::unknown(out);
    }
    let bits = reading::kw_bits(octets::i32_at(v, 0));
    print!(out; "0 {bits}")
}
