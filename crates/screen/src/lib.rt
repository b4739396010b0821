// What the programs read, and what they say of the run file on standard input: the line that the
// import tool prints of a file, that it cannot be read, and that it is longer than a program holds.
// Each line goes to the stream that it is given; where that takes no more, the error is the answer.

#![tactic(auto)]

mod call;
mod dump;
mod input;
mod words;

pub use call::{is_given, word};
pub use dump::{hex, value};
pub use input::{Filled, Stop, fill, read_whole};
use std::io;
use stick::Known;
use whole::Refusal;

// A whole refusal, behind a file's name: its number, its words, its place and its steps.
pub fn refusal(out: &impl Print, r: Refusal) -> io::Result<()> {
    let number = r.number;
    let name = words::name(number);
    let place = r.place;
    let steps = r.steps;
    println!(out; ": refused {number} ({name}) at byte {place} after {steps} steps")
}

// What is known of the run file, as a line; a program says nothing else of it.
pub fn line(out: &impl Print, k: Known) -> io::Result<()> {
    match k {
        Known::Complete(steps) => println!(out; "standard input: complete, {steps} steps"),
        Known::Refused(r) => {
            print!(out; "standard input")?;
            refusal(out, r)
        }
        Known::NotKnown => println!(out; "standard input: not read to its end"),
    }
}

// A read failed, so that nothing is known of the run file.
pub fn unreadable(out: &impl Print) -> io::Result<()> {
    println!(out; "standard input: cannot be read")
}

// The input is longer than the buffer: what was not done, and which command does it.
pub fn too_long(out: &impl Print, not_done: &[u8], command: &[u8]) -> io::Result<()> {
    print!(out; "standard input: not ")?;
    out.write_all(not_done)?;
    print!(out; ": longer than the 65536 bytes that this program holds; use import ")?;
    out.write_all(command)?;
    println!(out; "")
}
