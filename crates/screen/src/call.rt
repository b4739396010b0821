// The words of a program's call; word 0 is the program's name.
ghost use Rattle.std.specs.Prelude.{IfOk};
ghost use Rattle.screen.specs.Counts.{IsPrefixLen};

use std::env::FillError;
use std::rt::Env;

// Puts a word at a buffer's start, as the bytes that it was given as: its length, or that there is no
// such word, or that it is longer than the buffer.
pub fn word(rt: &impl Env, place: usize, buffer: &mut [u8]) -> Result<usize, FillError>
    ensures { IfOk result (λ n. IsPrefixLen n buffer.new) }
{
    rt.arg(place, buffer)
}

// Whether the call has a word at a place.
pub fn is_given(rt: &impl Env, place: usize) -> bool {
    !matches!(rt.arg(place, &mut []), Err(FillError::NotPresent))
}
