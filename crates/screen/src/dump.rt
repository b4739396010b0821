// Bytes as the import tool shows them: two upper-case hex digits each, at most 16 to a line.
use std::{fmt, io};

// The digits of bytes.
const DIGITS: [u8; 16] = *b"0123456789ABCDEF";

// A line of them, indented. Each digit is written as a character: a number's own format takes several
// times as long.
#[derive(Drop)]
struct HexLine<'a>(&'a [u8]);

impl fmt::Display for HexLine<'_> {
    fn fmt<W: fmt::Write>(&self, f: &mut fmt::Formatter<W>) -> fmt::Result {
        f.write_str("       ")?;
        for byte in self.0 {
            f.write_char(' ')?;
            f.write_char(DIGITS[(*byte / 16) as usize] as char)?;
            f.write_char(DIGITS[(*byte % 16) as usize] as char)?;
        }
        Ok(())
    }
}

// Any bytes, indented.
pub fn hex(out: &impl Print, bytes: &[u8]) -> io::Result<()> {
    for line in bytes.chunks(16) {
        out.println(HexLine(line))?;
    }
    Ok(())
}

// The value bytes of a field, as many as are there.
pub fn value(out: &impl Print, bytes: &[u8]) -> io::Result<()> {
    match bytes.len() {
        0 => println!(out; "    value: no bytes there")?,
        1 => println!(out; "    value, 1 byte there:")?,
        n => println!(out; "    value, {n} bytes there:")?,
    }
    hex(out, bytes)
}
