ghost use Rattle.stick.specs.Check.{Accepted};

use super::arguments::{Asked, Given};
use super::sums::Left;
use settling::Studied;
use std::io;

// The word behind a number of passes.
fn passes_word(n: u32) -> &'static str {
    if n == 1 { "pass" } else { "passes" }
}

// Whether the study settled, and after how many passes.
pub fn outcome(out: &impl Print, r: Studied, budget: u32) -> io::Result<()> {
    let passes = r.passes;
    if r.settled {
        let word = passes_word(passes);
        println!(out; "standard input: settled after {passes} changing {word}")
    } else {
        let word = passes_word(budget);
        println!(out;
            "standard input: not settled within {budget} {word}, {passes} changed a request"
        )
    }
}

// What a mode is called, in brackets; nothing for a number that is no mode.
fn mode_name(mode: u8) -> &'static str {
    match mode {
        2 => " (Support)",
        3 => " (PeakShaveLow)",
        4 => " (I-PeakShave)",
        5 => " (I-PeakShaveLow)",
        _ => "",
    }
}

// A study has a mode of its own, and says so of a file that has another.
pub fn mode(out: &impl Print, mode: u8) -> io::Result<()> {
    if mode == 1 {
        return Ok(());
    }
    let name = mode_name(mode);
    let taken = if 4 <= mode {
        ", and its target and band, which are in mA, are taken as W"
    } else {
        ""
    };
    println!(out;
        "a study is in mode 1 (PeakShave) and by watts; the stick's mode is {mode}{name}{taken}"
    )
}

// A line for each unit of an accepted file.
pub fn units(out: &impl Print, file: &[u8], requests: &[i32]) -> io::Result<()>
    requires { Accepted file.now }
{
    println!(out; "units are counted from 0: unit 0 is the 1st unit\nunit\trequest W\trating W")?;
    for i in 0..requests.len().min(stick::units(file)) {
        let request = requests[i];
        let rating = stick::unit(file, i).rating;
        println!(out; "{i}\t{request}\t{rating}")?;
    }
    Ok(())
}

// What is left of the load, and how it lies to the target.
pub fn left(out: &impl Print, l: Left, target: i32, band: u32) -> io::Result<()> {
    let sum = l.sum;
    let reading = l.reading;
    let lies = if l.within { "within" } else { "not within" };
    println!(out;
        "sum of requests {sum} W, reading left {reading} W: {lies} half the band ({band} W) of the target ({target} W)"
    )
}

// How far a study that its budget stopped is from done, and how many passes can still change a
// request at most, since each takes a watt at least off the gap and off the room. Its reading is
// never below the target, so that the gap is above it.
pub fn rest(out: &impl Print, l: Left, room: u64) -> io::Result<()> {
    let gap = l.gap;
    if l.within {
        return println!(out;
            "gap left {gap} W, within half the band: no further pass changes a request"
        );
    }
    let left = "left to the ratings of units above reserve";
    match gap.min(room) {
        0 => println!(out;
            "gap left {gap} W: no further pass changes a request (every unit above reserve is at its rating)"
        ),
        1 => println!(out;
            "gap left {gap} W: at most 1 further pass changes a request ({gap} W to the target, {room} W {left})"
        ),
        passes => println!(out;
            "gap left {gap} W: at most {passes} further passes change a request ({gap} W to the target, {room} W {left})"
        ),
    }
}

// A word of the call that is outside its range.
fn outside(out: &impl Print, name: &str, given: Given, range: &str) -> io::Result<()> {
    print!(out; "{name} ")?;
    out.write_all(given.word)?;
    println!(out; ": refused 5 (value out of range)\n    {range}")
}

// The study refused the load or the budget, and no other value: those of the file are in their
// ranges.
pub fn refused(out: &impl Print, err: &impl Print, asked: Asked) -> io::Result<()> {
    let load = asked.load;
    let budget = asked.budget;
    let load_outside = 100000000 < load.number;
    if load_outside {
        outside(out, "LOAD", load, "A load is 0 to 100,000,000 W.")?;
    }
    if budget.number < 1 || 10000 < budget.number {
        outside(out, "BUDGET", budget, "A budget is 1 to 10,000 passes.")?;
    }
    let other = if load_outside { "LOAD" } else { "BUDGET" };
    println!(err; "standard input: no study; call again with another {other}")
}
