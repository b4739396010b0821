use screen::Stop;
use std::io;
use stick::Known;

// As many buffers as the longest file that is not refused can fill, and more.
const TURNS: u32 = 64;

// What the output holds: nothing, all that was to be written so far, or not all of that.
#[derive(Clone, Copy)]
pub enum Output {
    Empty,
    Whole,
    Cut,
}

// Why a run does not go on with the bytes behind a piece: the room is too small for its results, it
// was refused, or its results were not written.
#[derive(Clone, Copy)]
enum Halt {
    TooSmall,
    Refused,
    NotWritten,
}

// Writes results.
fn put(out: &impl Print, results: &[u8], output: &mut Output) -> Result<(), Halt> {
    if results.is_empty() {
        return Ok(());
    }
    match out.write_all(results) {
        Ok(()) => {
            *output = Output::Whole;
            Ok(())
        }
        Err(_) => {
            *output = Output::Cut;
            Err(Halt::NotWritten)
        }
    }
}

// Feeds a piece and writes its results.
fn give(
    out: &impl Print,
    state: &mut [u8],
    piece: &[u8],
    room: &mut [u8],
    output: &mut Output,
) -> Result<(), Halt> {
    match feed::feed(state, piece, room) {
        Ok(bytes) => put(out, &room[0..bytes as usize], output),
        Err(11) => Err(Halt::TooSmall),
        Err(_) => Err(Halt::Refused),
    }
}

// Feeds all of a chunk, in pieces whose results the room holds: where one has too many, half as many
// bytes are tried. A byte closes one step at most, so that the room is large enough for some piece.
fn chunk(
    out: &impl Print,
    state: &mut [u8],
    bytes: &[u8],
    room: &mut [u8],
    output: &mut Output,
) -> Result<(), Halt> {
    let mut at = 0;
    let mut most = bytes.len();
    while at < bytes.len() {
        let end = at + most.min(bytes.len() - at);
        match give(out, state, &bytes[at..end], room, output) {
            Ok(()) => at = end,
            Err(Halt::TooSmall) if 1 < most => most /= 2,
            Err(halt) => return Err(halt),
        }
    }
    Ok(())
}

// What became of a buffer, and why there is no more in it.
#[derive(Clone, Copy)]
struct Went {
    fed: Result<(), Halt>,
    stop: Stop,
}

// Feeds one buffer of standard input.
fn turn(
    input: &mut impl io::Read,
    out: &impl Print,
    state: &mut [u8],
    room: &mut [u8],
    output: &mut Output,
) -> Went {
    let mut bytes = [0u8; 65536];
    let f = screen::fill(input, &mut bytes);
    let fed = chunk(out, state, &bytes[..f.count], room, output);
    Went { fed, stop: f.stop }
}

// Feeds standard input, a buffer at a time, until it ends, cannot be read or is refused, or until its
// results cannot be written.
fn buffers(
    input: &mut impl io::Read,
    out: &impl Print,
    state: &mut [u8],
    room: &mut [u8],
    output: &mut Output,
) -> Went {
    let mut t = turn(input, out, state, room, output);
    for _ in 0..TURNS {
        let (Ok(()), Stop::Full) = (t.fed, t.stop) else {
            return t;
        };
        t = turn(input, out, state, room, output);
    }
    t
}

// What a run came to: what is known of the stick, whether a read failed, and what was written.
#[derive(Clone, Copy)]
pub struct Ran {
    pub known: Known,
    pub failed: bool,
    pub output: Output,
}

// Feeds standard input, and its end where all of it was fed and written: of a complete stick the end
// record then stands at the room's start.
pub fn all(input: &mut impl io::Read, out: &impl Print, state: &mut [u8]) -> Ran {
    let mut room = [0u8; 65536];
    let mut output = Output::Empty;
    let t = buffers(input, out, state, &mut room, &mut output);
    let all_fed = matches!((t.fed, t.stop), (Ok(()), Stop::Ended));
    let known = fed::known(state, &mut room, all_fed);
    if let Known::Complete(_) = known {
        let _ = put(out, &room[0..7], &mut output);
    }
    Ran {
        known,
        failed: matches!(t.stop, Stop::Failed(_)),
        output,
    }
}
