ghost use Rattle.std.specs.Prelude.{◌≤◌, length};
ghost use Rattle.stick.specs.Check.{Accepted};

use unit::Unit;

// What a study leaves: the sum of the requests, the reading, how far this is from the target, and
// whether that is within half the band.
#[derive(Clone, Copy)]
pub struct Left {
    pub sum: i64,
    pub reading: i64,
    pub gap: u64,
    pub within: bool,
}

// What the requests leave of the load.
pub fn after(load: u32, target: i32, band: u32, requests: &[i32]) -> Left
    requires { length requests.now ≤ 64 }
{
    let sum = members::asked_of(requests).sum;
    let reading = i64::from(load) - sum;
    let gap = (reading - i64::from(target)).unsigned_abs();
    Left {
        sum,
        reading,
        gap,
        within: 2 * gap <= u64::from(band),
    }
}

// How far a unit above its reserve is below its rating, which no request of a study is above; 0 of
// any other unit.
fn below(u: Unit, request: i32) -> u32 {
    if u.stored <= u.reserve {
        return 0;
    }
    u.rating.saturating_sub(request.unsigned_abs())
}

// How far the units of an accepted file that are above their reserves are below their ratings, all
// together.
pub fn room(file: &[u8], requests: &[i32]) -> u64
    requires accepted { Accepted file.now }
    requires requests_len_bound { length requests.now ≤ 64 }
{
    let mut room: u64 = 0;
    for i in 0..requests.len().min(stick::units(file)) {
        room += u64::from(below(stick::unit(file, i), requests[i]));
    }
    room
}
