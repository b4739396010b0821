ghost use Rattle.std.specs.Prelude.{◌≤◌};

use super::say;
use super::say::Numbers;
use controller::Passed;
use rules::Settings;
use settling::{Studied, Trial};
use std::io;
use whole::Refusal;

// Most units that a case may have: one more than a call accepts.
const MOST: usize = 65;

// A unit of a case: rated, reserve and stored energy, rating and weight; the request of a pass
// follows.
const UNIT: usize = 30;

const UNIT_AND_REQUEST: usize = 34;

// The units of a case, in lists that hold the most; where the case ends, zeros follow.
#[derive(Drop)]
struct Units {
    rated: [u64; MOST],
    reserve: [u64; MOST],
    stored: [u64; MOST],
    rating: [u32; MOST],
    weight: [u16; MOST],
}

impl Units {
    // The units of a case, so many bytes apart.
    fn read(v: &[u8], size: usize) -> Units
        requires { 30 ≤ size }
    {
        let mut units = Units {
            rated: [0; MOST],
            reserve: [0; MOST],
            stored: [0; MOST],
            rating: [0; MOST],
            weight: [0; MOST],
        };
        let mut rest = v;
        for i in 0..MOST {
            let Some((unit, behind)) = rest.split_at_checked(size) else {
                break;
            };
            units.rated[i] = octets::u64_at(unit, 0);
            units.reserve[i] = octets::u64_at(unit, 8);
            units.stored[i] = octets::u64_at(unit, 16);
            units.rating[i] = octets::u32_at(unit, 24);
            units.weight[i] = octets::u16_at(unit, 28);
            rest = behind;
        }
        units
    }
}

// The requests of a pass's units.
fn asked(v: &[u8], requests: &mut [i32]) {
    for (request, unit) in requests.iter_mut().zip(v.chunks_exact(UNIT_AND_REQUEST)) {
        *request = octets::i32_at(unit, UNIT);
    }
}

// A pass's answer.
fn tell_pass(out: &impl Print, a: Result<Passed, Refusal>, requests: &[i32]) -> io::Result<()> {
    match a {
        Ok(p) => { print!(out; "0 {} {}{}", p.need, u8::from(p.changed), Numbers(requests)) }
        Err(r) => say::refusal(out, r.number),
    }
}

// P: mode, target, band, factor, measure, the number of units, and each with its request. The need,
// whether a request changed, and the requests.
pub fn pass(out: &impl Print, v: &[u8]) -> io::Result<()> {
    if v.len() < 20 {
        return say::unknown(out);
    }
    let n = usize::from(octets::u8_at(v, 19));
    if MOST < n {
        return say::unknown(out);
    }
    let u = Units::read(&v[20..], UNIT_AND_REQUEST);
    let mut requests = [0i32; MOST];
    let requests = &mut requests[0..n];
    asked(&v[20..], requests);
    let settings = Settings {
        mode: octets::u8_at(v, 0),
        target: octets::i32_at(v, 1),
        band: octets::u32_at(v, 5),
        factor: octets::u16_at(v, 9),
    };
    let a = controller::pass(
        settings,
        octets::i64_at(v, 11),
        &u.rated[..n],
        &u.reserve[..n],
        &u.stored[..n],
        &u.rating[..n],
        &u.weight[..n],
        requests,
    );
    tell_pass(out, a, requests)
}

// A study's answer.
fn tell_study(out: &impl Print, a: Result<Studied, Refusal>, requests: &[i32]) -> io::Result<()> {
    match a {
        Ok(r) => {
            print!(out;
                "0 {} {}{}",
                u8::from(r.settled),
                r.passes,
                Numbers(requests)
            )
        }
        Err(r) => say::refusal(out, r.number),
    }
}

// T: load, target, band, factor, budget, the number of units, and each. Whether it settled, the
// passes that changed a request, and the requests.
pub fn study(out: &impl Print, v: &[u8]) -> io::Result<()> {
    if v.len() < 23 {
        return say::unknown(out);
    }
    let n = usize::from(octets::u8_at(v, 22));
    if MOST < n {
        return say::unknown(out);
    }
    let u = Units::read(&v[23..], UNIT);
    let settings = Settings {
        mode: 1,
        target: octets::i32_at(v, 8),
        band: octets::u32_at(v, 12),
        factor: octets::u16_at(v, 16),
    };
    let q = Trial {
        settings,
        load: octets::i64_at(v, 0),
        budget: octets::u32_at(v, 18),
    };
    let mut requests = [0i32; MOST];
    let requests = &mut requests[0..n];
    let a = settling::settle(
        q,
        &u.rated[..n],
        &u.reserve[..n],
        &u.stored[..n],
        &u.rating[..n],
        &u.weight[..n],
        requests,
    );
    tell_study(out, a, requests)
}
