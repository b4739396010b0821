ghost use Rattle.std.specs.Prelude.{◌≡◌, ◌<◌, IfSome, length, take};
ghost use Rattle.std.specs.Io.KnownBytes.{Consumes, IsAtEnd};
ghost use Rattle.screen.specs.Counts.{IsPrefixLen};

use std::io::{Error, Read};

// Why reading stopped: the buffer is full, the input ended, or a read failed.
#[derive(Clone, Copy)]
pub enum Stop {
    Full,
    Ended,
    Failed(Error),
}

// What reading came to: so many bytes at a buffer's start, and why there are no more.
#[derive(Clone, Copy)]
pub struct Filled {
    pub count: usize,
    pub stop: Stop,
}

// Reads until the buffer is full, the input ends or a read fails: what then stands at the buffer's
// start are the input's next bytes.
pub fn fill<R: Read>(input: &mut R, buffer: &mut [u8]) -> Filled
    ensures in_bounds { IsPrefixLen result.count buffer.new }
    ensures bytes { Consumes (R.remaining input.old) (R.remaining input.new) (take result.count buffer.new) }
    ensures end { result.stop ≡ Stop.Ended → IsAtEnd (R.remaining input.new) }
    ensures full { result.stop ≡ Stop.Full → result.count ≡ length buffer.new }
{
    let mut n = 0;
    while n < buffer.len() {
        match input.read(&mut buffer[n..]) {
            Ok(0) => {
                return Filled {
                    count: n,
                    stop: Stop::Ended,
                };
            }
            Ok(got) => n += got,
            Err(e) => {
                return Filled {
                    count: n,
                    stop: Stop::Failed(e),
                };
            }
        }
    }
    Filled {
        count: n,
        stop: Stop::Full,
    }
}

// Reads all of the input, as far as the buffer holds it, and nothing else stands at its start: where
// it ended, that is all of it, and where the buffer is full, there is more.
pub fn read_whole<R: Read>(input: &mut R, buffer: &mut [u8]) -> Filled
    ensures in_bounds { IsPrefixLen result.count buffer.new }
    ensures whole { result.stop ≡ Stop.Ended → IfSome (R.remaining input.old) (λ xs. take result.count buffer.new ≡ xs) }
    ensures longer { result.stop ≡ Stop.Full → IfSome (R.remaining input.old) (λ xs. length buffer.new < length xs) }
{
    let f = fill(input, buffer);
    let Stop::Full = f.stop else {
        return f;
    };
    let stop = match input.read(&mut [0u8; 1]) {
        Ok(0) => Stop::Ended,
        Ok(_) => Stop::Full,
        Err(e) => Stop::Failed(e),
    };
    Filled { stop, ..f }
}
