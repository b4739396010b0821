use super::say;
use super::say::Hex;
use std::io;

// C: a file. Number, place and steps of its check.
pub fn check(out: &impl Print, v: &[u8]) -> io::Result<()> {
    match stick::check(v) {
        Ok(a) => print!(out; "0 {} {}", a.place, a.steps),
        Err(r) => print!(out; "{} {} {}", r.number, r.place, r.steps),
    }
}

// Where the value part of the field at a place begins, and how many bytes it has.
fn part_at(out: &impl Print, file: &[u8], place: u64) -> io::Result<()> {
    let n = parts::value_at(file, place).len() as u64;
    let start = parts::place_past(file, place) - n;
    print!(out; "0 {start} {n}")
}

// V: a place and a file. Its value part.
pub fn part(out: &impl Print, v: &[u8]) -> io::Result<()> {
    if v.len() < 4 {
        return say::unknown(out);
    }
    let place = u64::from(octets::u32_at(v, 0));
    part_at(out, &v[4..], place)
}

// R: a room's length and a file. Number, place and steps of the run, and the result's bytes.
pub fn run(out: &impl Print, v: &[u8]) -> io::Result<()> {
    if v.len() < 2 {
        return say::unknown(out);
    }
    let n = usize::from(octets::u16_at(v, 0));
    if 8192 < n {
        return say::unknown(out);
    }
    let mut room = [0u8; 8192];
    run_in(out, &v[2..], &mut room[..n])
}

// The run in a room.
fn run_in(out: &impl Print, file: &[u8], room: &mut [u8]) -> io::Result<()> {
    match season::run(file, room) {
        Ok(a) => {
            let n = room.len().min(season::room(file) as usize);
            print!(out; "0 {} {} {}", a.place, a.steps, Hex(&room[..n]))
        }
        Err(r) => print!(out; "{} {} {}", r.number, r.place, r.steps),
    }
}
