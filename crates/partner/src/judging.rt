ghost use Rattle.std.specs.Prelude.{◌≡◌, length};
ghost use Rattle.stick.specs.Site.{plant_of};
ghost use Rattle.stick.specs.Check.{Accepted};
ghost use Rattle.stretch.specs.Stretch.{all_bytes};
ghost use Rattle.season.specs.Posts.{Lengths, SetOut};
ghost use Rattle.partner.specs.Verdict.{verdict_of, partner_answer};

use super::{Verdict, alike, places};
use fields::HEADER;
use records::{RECORD_BYTES, ROOF_RECORD_BYTES};
use rows::Row;
use stretch::Track;
use whole::Refusal;

// The fields of an accepted run file in turn: what each brings stands in the room, and is held beside
// what the partner has in its place; up to the end field, which brings the end record.
fn steps_judged(
    run: &[u8],
    t: Track,
    rows: &[Row],
    res: &[u8],
    stored: &mut [u64],
    requests: &mut [i32],
    vars: &mut [i32],
    on: &mut [bool],
    room: &mut [u8],
) -> Verdict
    requires accepted { Accepted run.now }
    requires set_out { SetOut run.now t rows.now stored.old requests.old vars.old on.old }
    requires room_len { length room.old ≡ all_bytes (plant_of run.now) }
    ensures { result ≡ verdict_of run.now res.now }
{
    let units = requests.len();
    let size = RECORD_BYTES * units + ROOF_RECORD_BYTES * on.len();
    let mut w = t.way;
    let mut at = t.at;
    while octets::u8_at(run, at) != 127 {
        let here = Track {
            at,
            out: 0,
            way: w,
            ..t
        };
        let next = stretch::on_field(run, rows, run, here, stored, requests, vars, on, room);
        let out = size * (w.step as usize);
        let brought = size * ((next.step - w.step) as usize);
        let d = alike::alike(room, brought, res, out);
        if d < brought {
            let part = places::field_in(units, d);
            return places::wrong(run, at, res.len(), out + part.start, part.size);
        }
        w = next;
        at += HEADER + (octets::u16_at(run, at + 1) as usize);
    }
    places::end_judged(run, at, res, size * (w.step as usize), w.step)
}

// The verdict, with rows and lists for the run file's units and inverters, and room for one step.
fn judged_with(
    run: &[u8],
    res: &[u8],
    rows: &mut [Row],
    stored: &mut [u64],
    requests: &mut [i32],
    vars: &mut [i32],
    on: &mut [bool],
    room: &mut [u8],
) -> Verdict
    requires accepted { Accepted run.now }
    requires lengths { Lengths run.now rows.old stored.old requests.old vars.old on.old }
    requires room_len { length room.old ≡ all_bytes (plant_of run.now) }
    ensures { result ≡ verdict_of run.now res.now }
{
    let t = season::set_out(run, rows, stored, requests, vars, on);
    steps_judged(run, t, rows, res, stored, requests, vars, on, room)
}

// The verdict on an accepted run file and any result.
fn judged(run: &[u8], res: &[u8]) -> Verdict
    requires { Accepted run.now }
    ensures { result ≡ verdict_of run.now res.now }
{
    let n = stick::units(run);
    let m = stick::roofs(run);
    let mut rows = [Row::EMPTY; 64];
    let mut stored = [0u64; 64];
    let mut requests = [0i32; 64];
    let mut vars = [0i32; 128];
    let mut on = [false; 64];
    let mut room = [0u8; 4416];
    judged_with(
        run,
        res,
        &mut rows[0..n],
        &mut stored[0..n],
        &mut requests[0..n],
        &mut vars[0..n + m],
        &mut on[0..m],
        &mut room[0..RECORD_BYTES * n + ROOF_RECORD_BYTES * m],
    )
}

// The verdict on any two files, or the check's refusal of the first.
pub fn judge(run: &[u8], res: &[u8]) -> Result<Verdict, Refusal>
    ensures { result ≡ partner_answer run.now res.now }
{
    stick::check(run)?;
    Ok(judged(run, res))
}
