use std::alloc::Global;
use std::io::Error;
use std::{fmt, io};
use whole::Refusal;

// A name as it was given, whose bytes need not be text: one that is not printable shows as '?'.
#[derive(Clone, Copy)]
pub struct Name<'a>(pub &'a [u8]);

impl fmt::Display for Name<'_> {
    fn fmt<W: fmt::Write>(&self, f: &mut fmt::Formatter<W>) -> fmt::Result {
        for byte in self.0 {
            let letter = match *byte {
                b' '..=b'~' => *byte as char,
                _ => '?',
            };
            write!(f, "{letter}")?;
        }
        Ok(())
    }
}

// How the program is called.
pub fn usage(err: &impl Print) -> io::Result<()> {
    println!(err;
        "usage: stick_partner RUN RESULT\n    RUN is a run file, RESULT what a partner says its result is."
    )
}

// The words of an error, without the system's number behind them.
fn reason(text: &str) -> &str {
    match text.split_once(" (os error ") {
        Some((words, _)) => words,
        None => text,
    }
}

// A file that cannot be opened, or read to its end, and why.
pub fn unreadable(alloc: Global, err: &impl Print, file: Name, e: Error) -> io::Result<()> {
    let text = format!(in alloc; "{e}")?;
    let why = reason(text.as_str());
    println!(err; "{file}: cannot be read: {why}")
}

// A word of the call that is longer than any name.
pub fn too_long_a_name(err: &impl Print, word: &[u8]) -> io::Result<()> {
    err.write_all(word)?;
    println!(err; ": cannot be read: File name too long")
}

// A file that is longer than the buffer.
pub fn too_long(err: &impl Print, file: Name) -> io::Result<()> {
    println!(err; "{file}: longer than the 65536 bytes that this program holds; use import partner")
}

// The result was not judged; the line before says why.
pub fn no_verdict(err: &impl Print, res: Name) -> io::Result<()> {
    println!(err; "{res}: not judged; there is no verdict")
}

// The check's refusal of the run file.
pub fn refused(out: &impl Print, run: Name, r: Refusal) -> io::Result<()> {
    print!(out; "{run}")?;
    screen::refusal(out, r)
}

// The result is the run's, byte for byte.
pub fn right(out: &impl Print, run: Name, res: Name) -> io::Result<()> {
    println!(out; "{res}: right: the result of {run}")
}

// Bytes of the result from a place on are not what the run writes there.
pub fn wrong(out: &impl Print, run: Name, res: Name, start: u64) -> io::Result<()> {
    println!(out; "{res}: wrong: not the result of {run}, from byte {start} on\n    bytes there:")
}

// The result ends too soon: a field of the run file at a place asks for more.
pub fn short(out: &impl Print, run: Name, res: Name, start: u64) -> io::Result<()> {
    println!(out;
        "{res}: wrong: not the result of {run}; it ends before the record that this field of {run} asks for, at byte {start}:"
    )
}
