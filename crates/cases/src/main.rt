// Reads stored cases from standard input and writes an answer line for each to standard output.
// A case is a kind byte, a two-byte length and that many bytes; the answer is the refusal's number
// and, where that is 0, the results. `reference/` writes the cases and the answers that rt ci
// compares with: the proved functions are held to a second opinion on every check.

#![tactic(auto)]

mod files;
mod fleets;
mod lights;
mod readings;
mod say;
mod steps;
mod wholes;

use std::io;
use std::io::{ErrorKind, Read};

fn answer(out: &impl Print, kind: u8, value: &[u8]) -> io::Result<()> {
    match kind {
        b'W' => readings::watts(out, value)?,
        b'M' => readings::measure(out, value)?,
        b'K' => readings::kilowatts(out, value)?,
        b'P' => fleets::pass(out, value)?,
        b'T' => fleets::study(out, value)?,
        b'S' => steps::step(out, value)?,
        b'I' => lights::light(out, value)?,
        b'C' => files::check(out, value)?,
        b'V' => files::part(out, value)?,
        b'R' => files::run(out, value)?,
        b'L' => wholes::leg(out, value)?,
        b'U' => wholes::up(out, value)?,
        b'Z' => wholes::cut(out, value)?,
        _ => say::unknown(out)?,
    }
    println!(out; "")
}

// Fills a part from the input: whether it was all there.
fn filled(input: &mut impl Read, part: &mut [u8]) -> io::Result<bool> {
    match input.read_exact(part) {
        Ok(()) => Ok(true),
        Err(e) if e.kind() == ErrorKind::UnexpectedEof => Ok(false),
        Err(e) => Err(e),
    }
}

// A case, whose value lies in a room.
#[derive(Clone, Copy)]
struct Case<'a> {
    kind: u8,
    value: &'a [u8],
}

// The next case: none where the input has no whole one, or one that is longer than the room.
fn next<'a>(input: &mut impl Read, room: &'a mut [u8]) -> io::Result<Option<Case<'a>>> {
    let mut head = [0u8; 3];
    if !filled(input, &mut head)? {
        return Ok(None);
    }
    let kind = head[0];
    let length = usize::from(octets::u16_at(&head, 1));
    if room.len() < length {
        return Ok(None);
    }
    let value = &mut room[..length];
    if !filled(input, value)? {
        return Ok(None);
    }
    Ok(Some(Case { kind, value }))
}

// A proved loop has to end, and nothing says that the input does: the count is one that no input
// uses up.
fn all_cases(input: &mut impl Read, out: &impl Print, room: &mut [u8]) -> io::Result<()> {
    for _ in 0..u64::MAX {
        let Some(case) = next(input, room)? else {
            break;
        };
        answer(out, case.kind, case.value)?;
    }
    Ok(())
}

fn main(rt: HostRuntime) -> io::Result<()> {
    let mut room = [0u8; 16384];
    all_cases(&mut rt.stdin(), &rt, &mut room)
}
