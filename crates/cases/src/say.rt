use std::{fmt, io};

// The number of a refusal.
pub fn refusal(out: &impl Print, number: u8) -> io::Result<()> {
    print!(out; "{number}")
}

// Bytes in hexadecimal, two digits each.
#[derive(Clone, Copy)]
pub struct Hex<'a>(pub &'a [u8]);

impl fmt::Display for Hex<'_> {
    fn fmt<W: fmt::Write>(&self, f: &mut fmt::Formatter<W>) -> fmt::Result {
        for byte in self.0 {
            write!(f, "{byte:02x}")?;
        }
        Ok(())
    }
}

// Numbers, each behind a blank.
#[derive(Clone, Copy)]
pub struct Numbers<'a>(pub &'a [i32]);

impl fmt::Display for Numbers<'_> {
    fn fmt<W: fmt::Write>(&self, f: &mut fmt::Formatter<W>) -> fmt::Result {
        for number in self.0 {
            write!(f, " {number}")?;
        }
        Ok(())
    }
}

// A case that is none of this program's.
pub fn unknown(out: &impl Print) -> io::Result<()> {
    print!(out; "?")
}
