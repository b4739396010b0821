use super::say;
use std::io;
use storage::Outcome;
use unit::Unit;
use whole::Refusal;

// S: seconds, a unit's twelve values in the file's order, and the request. Watts, vars, the store
// after the step and the loss.
pub fn step(out: &impl Print, v: &[u8]) -> io::Result<()> {
    if v.len() != 57 {
        return say::unknown(out);
    }
    let u = Unit {
        rated: octets::u64_at(v, 4),
        reserve: octets::u64_at(v, 12),
        stored: octets::u64_at(v, 20),
        rating: octets::u32_at(v, 28),
        kva: octets::u32_at(v, 32),
        dc_loss: octets::u32_at(v, 36),
        var_request: octets::i32_at(v, 40),
        weight: octets::u16_at(v, 44),
        inverter: octets::u16_at(v, 46),
        charge: octets::u16_at(v, 48),
        discharge: octets::u16_at(v, 50),
        priority: octets::u8_at(v, 52),
        provide: octets::u32_at(v, 32),
        absorb: octets::u32_at(v, 32),
        grid_loss: 0,
        link: 0,
    };
    tell(
        out,
        storage::step(u, octets::u32_at(v, 0), octets::i32_at(v, 53)),
    )
}

// A step's answer.
fn tell(out: &impl Print, a: Result<Outcome, Refusal>) -> io::Result<()> {
    match a {
        Ok(o) => print!(out; "0 {} {} {} {}", o.watts, o.vars, o.stored, o.loss),
        Err(r) => say::refusal(out, r.number),
    }
}
