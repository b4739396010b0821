// Checks the run file on standard input and prints the line that the import tool prints of a file;
// of a refused file the value bytes of the refused field too, as the support screen gets them.

#![tactic(auto)]

use screen::Stop;
use std::io;
use stick::Known;

// The check of what was read, all of it.
fn checked(out: &impl Print, file: &[u8]) -> io::Result<()> {
    let k = stick::known_whole(file);
    screen::line(out, k)?;
    match k {
        Known::Refused(a) => screen::value(out, parts::value_at(file, a.place)),
        _ => Ok(()),
    }
}

fn main(rt: HostRuntime) -> io::Result<()> {
    let mut room = [0u8; 65536];
    let f = screen::read_whole(&mut rt.stdin(), &mut room);
    match f.stop {
        Stop::Ended => checked(&rt, &room[..f.count]),
        Stop::Full => screen::too_long(&rt, b"checked", b"check"),
        Stop::Failed(_) => screen::unreadable(&rt),
    }
}
