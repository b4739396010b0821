ghost use Rattle.std.specs.Prelude.{◌≤◌, length};
ghost use Rattle.stick.specs.Check.{Accepted};

use super::arguments::Asked;
use super::{lines, sums};
use settling::Studied;
use std::io;

// The lines of a study of an accepted file.
fn told(out: &impl Print, file: &[u8], asked: Asked, r: Studied, requests: &[i32]) -> io::Result<()>
    requires accepted { Accepted file.now }
    requires requests_len_bound { length requests.now ≤ 64 }
{
    let s = stick::head(file).settings;
    lines::outcome(out, r, asked.budget.number)?;
    lines::mode(out, s.mode)?;
    lines::units(out, file, requests)?;
    let l = sums::after(asked.load.number, s.target, s.band, requests);
    lines::left(out, l, s.target, s.band)?;
    if !r.settled {
        lines::rest(out, l, sums::room(file, requests))?;
    }
    Ok(())
}

// The study over the fleet and the settings of an accepted file, with a request for each unit, or
// what is said where the load or the budget is outside its range.
pub fn made(out: &impl Print, err: &impl Print, file: &[u8], asked: Asked) -> io::Result<()>
    requires { Accepted file.now }
{
    let n = stick::units(file);
    let mut room = [0i32; 64];
    let requests = &mut room[0..n];
    let load = i64::from(asked.load.number);
    match ask::study(file, load, asked.budget.number, requests) {
        Ok(r) => told(out, file, asked, r, requests),
        Err(_) => lines::refused(out, err, asked),
    }
}
