// Runs the run file on standard input, of any length, and writes its result to standard output as it
// goes: what is read is fed to the run in chunks. What is known of the file goes to standard error.

#![tactic(auto)]

mod feeding;

use feeding::{Output, Ran};
use std::io;
use stick::Known;

// What is known of the stick, or that it cannot be read.
fn input_told(err: &impl Print, k: Known, failed: bool) -> io::Result<()> {
    match k {
        Known::NotKnown if failed => screen::unreadable(err),
        _ => screen::line(err, k),
    }
}

// What is to be done with what was written of a stick that is not complete.
fn output_told(err: &impl Print, k: Known) -> io::Result<()> {
    match k {
        Known::Complete(_) => Ok(()),
        Known::Refused(_) => println!(err;
            "standard output: steps of a stick that was refused; throw away what it holds"
        ),
        Known::NotKnown => println!(err;
            "standard output: steps of a stick that was not read to its end; throw away what it holds"
        ),
    }
}

// What is said once the input has ended or cannot be read, a chunk was refused, or a write failed.
fn told(err: &impl Print, r: Ran) -> io::Result<()> {
    let known = r.known;
    input_told(err, known, r.failed)?;
    match r.output {
        Output::Empty => Ok(()),
        Output::Whole => output_told(err, known),
        Output::Cut => println!(err;
            "standard output: not written whole; throw away what it holds"
        ),
    }
}

fn main(rt: HostRuntime) -> io::Result<()> {
    let mut state = [0u8; kept::SIZE];
    feed::start(&mut state);
    told(&rt.stderr(), feeding::all(&mut rt.stdin(), &rt, &mut state))
}
