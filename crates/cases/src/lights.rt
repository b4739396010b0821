use super::say;
use solar::{Given, Weather};
use std::io;

// I: an inverter's seven values, its two curves, a weather and whether the inverter was on, each as
// in a run file. Whether it is on, watts, vars and DC power.
pub fn light(out: &impl Print, v: &[u8]) -> io::Result<()> {
    if v.len() != 294 {
        return say::unknown(out);
    }
    let on = octets::u8_at(v, 293);
    let i = fields::inverter_at(v, 0);
    if !(solar::roof_in(i, v, 19, 148) & (on <= 1)) {
        return say::refusal(out, 5);
    }
    let w = Weather {
        irradiance: octets::f64_at(v, 277),
        temperature: octets::f64_at(v, 285),
    };
    let Some(s) = solar::sky_of(w) else {
        return say::refusal(out, 6);
    };
    tell(out, solar::step_within(i, v, 19, 148, on == 1, s))
}

// What an inverter gives.
fn tell(out: &impl Print, g: Given) -> io::Result<()> {
    print!(out; "0 {} {} {} {}", u8::from(g.on), g.watts, g.vars, g.dc)
}
