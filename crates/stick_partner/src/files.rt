ghost use Rattle.std.specs.Prelude.{IfOk};
ghost use Rattle.screen.specs.Counts.{IsPrefixLen};

use super::lines;
use super::lines::Name;
use screen::{Filled, Stop};
use std::fs::File;
use std::rt::Files;
use std::{io, str};

// Opens a file by its name as it was given, which has to be text.
fn opened<R: Files>(rt: &R, name: Name) -> io::Result<R::File> {
    match str::from_utf8(name.0) {
        Ok(path) => File::open(rt, path),
        Err(_) => Err(io::Error::new(io::ErrorKind::InvalidInput, "its name is not UTF-8")),
    }
}

// Reads a file whole, by its name: it ended where all of it was read. Of one that cannot be read, or
// is longer than the room, that is told.
pub fn read(
    rt: &(impl Files + AllocGlobal),
    err: &impl Print,
    name: Name,
    room: &mut [u8],
) -> io::Result<Filled>
    ensures { IfOk result (λ f. IsPrefixLen f.count room.new) }
{
    let f = match opened(rt, name) {
        Ok(mut file) => screen::read_whole(&mut file, room),
        Err(e) => Filled {
            count: 0,
            stop: Stop::Failed(e),
        },
    };
    match f.stop {
        Stop::Ended => {}
        Stop::Full => lines::too_long(err, name)?,
        Stop::Failed(e) => lines::unreadable(rt.alloc(), err, name, e)?,
    }
    Ok(f)
}
