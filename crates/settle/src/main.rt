// Studies where the fleet of the run file on standard input settles over a fixed load, in watts,
// within a budget of passes: settle LOAD [BUDGET]. It prints what the import tool prints of a file.

#![tactic(auto)]

mod arguments;
mod lines;
mod study;
mod sums;

use arguments::Asked;
use screen::Stop;
use std::io;
use stick::Known;

// The study of what was read, all of it.
fn studied(out: &impl Print, err: &impl Print, file: &[u8], asked: Asked) -> io::Result<()> {
    let k = stick::known_whole(file);
    let Known::Complete(_) = k else {
        screen::line(out, k)?;
        return println!(err; "standard input: refused; no study is made");
    };
    study::made(out, err, file, asked)
}

// Reads standard input and studies it.
fn read(
    input: &mut impl io::Read,
    out: &impl Print,
    err: &impl Print,
    asked: Asked,
) -> io::Result<()> {
    let mut room = [0u8; 65536];
    let f = screen::read_whole(input, &mut room);
    match f.stop {
        Stop::Ended => studied(out, err, &room[..f.count], asked),
        Stop::Full => screen::too_long(err, b"studied", b"settle"),
        Stop::Failed(_) => screen::unreadable(err),
    }
}

// A word that is missing or longer than 32 bytes is read as an empty one, which is no number.
fn main(rt: HostRuntime) -> io::Result<()> {
    let err = rt.stderr();
    let mut load = [0u8; 32];
    let mut budget = [0u8; 32];
    let n = screen::word(&rt, 1, &mut load).unwrap_or(0);
    let m = screen::word(&rt, 2, &mut budget).unwrap_or(0);
    if !screen::is_given(&rt, 1) || screen::is_given(&rt, 3) {
        return arguments::usage(&err);
    }
    let budget_word: &[u8] = if screen::is_given(&rt, 2) {
        &budget[..m]
    } else {
        b"10000"
    };
    match Asked::parse(&load[..n], budget_word) {
        Some(asked) => read(&mut rt.stdin(), &rt, &err, asked),
        None => arguments::usage(&err),
    }
}
