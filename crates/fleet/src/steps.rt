ghost use Rattle.std.specs.Prelude.{◌≡◌, ◌+◌, ◌≤◌, ◌<◌, List, ℤ, length};
ghost use Rattle.octets.specs.BigEndian.{laid};
ghost use Rattle.unit.specs.Ranges.{Ranged};
ghost use Rattle.storage.specs.Step.{step_of};
ghost use Rattle.storage.specs.Posts.{Rested, row_unit};
ghost use Rattle.site.specs.Site.{count};
ghost use Rattle.fleet.specs.Step.{standing, asked_by_watts, asked_by_current, asked_by, stored_after, vars_after, records_of, after, records_by, step_bytes};
ghost use Rattle.lead.specs.Lead.{Modest};
ghost use Rattle.fleet.specs.Posts.{Ready, Stored, Held, Unled, site_in};

use super::{Frame, Moment};
use reading::Reading;
use records::RECORD_BYTES;
use rows::Row;
use storage::{IDLES, OPEN, Outcome};

// The requests after a reading, by watts: one pass, and none if the reading is missing.
fn ask_by_watts(f: Frame, rows: &[Row], r: Reading, stored: &[u64], requests: &mut [i32])
    requires ready { Ready f rows.now }
    requires stored_len { length stored.now ≡ count (site_in f rows.now) }
    requires requests_len { length requests.old ≡ count (site_in f rows.now) }
    requires stored { Stored (site_in f rows.now) stored.now }
    ensures { requests.new ≡ asked_by_watts (site_in f rows.now) stored.now requests.old r }
{
    let Reading::Power(p) = r else {
        return;
    };
    let head = f.head;
    let Ok(m) = reading::regulated(p, head.phase) else {
        return;
    };
    let s = head.settings;
    let t = f.totals;
    controller::pass_within(s, m, t, rows, stored, requests);
}

// The same by current.
fn ask_by_current(f: Frame, rows: &[Row], r: Reading, stored: &[u64], requests: &mut [i32])
    requires ready { Ready f rows.now }
    requires stored_len { length stored.now ≡ count (site_in f rows.now) }
    requires requests_len { length requests.old ≡ count (site_in f rows.now) }
    requires stored { Stored (site_in f rows.now) stored.now }
    ensures { requests.new ≡ asked_by_current (site_in f rows.now) stored.now requests.old r }
{
    let Reading::Current(p) = r else {
        return;
    };
    let head = f.head;
    let Ok(m) = reading::current(p, head.phase) else {
        return;
    };
    let s = head.settings;
    let t = f.totals;
    controller::pass_within(s, m, t, rows, stored, requests);
}

// The requests after a reading, by the mode.
fn ask(f: Frame, rows: &[Row], r: Reading, stored: &[u64], requests: &mut [i32])
    requires ready { Ready f rows.now }
    requires stored_len { length stored.now ≡ count (site_in f rows.now) }
    requires requests_len { length requests.old ≡ count (site_in f rows.now) }
    requires stored { Stored (site_in f rows.now) stored.now }
    ensures { requests.new ≡ asked_by (site_in f rows.now) stored.now requests.old r }
{
    let head = f.head;
    let s = head.settings;
    if 4 <= s.mode {
        ask_by_current(f, rows, r, stored, requests);
    } else {
        ask_by_watts(f, rows, r, stored, requests);
    }
}

// One step of the unit of row i that nothing leads: that of the unit. `storage::step_of` says the same;
// this one is called in one place, so that the compiler lays it into the loop.
fn own(rows: &[Row], i: usize, held: u64, seconds: u32, request: i32) -> Outcome
    requires i_in_bounds { i < length rows.now }
    requires rested { Rested seconds rows.now }
    requires ranged { Ranged (row_unit rows.now i held) seconds }
    ensures { result ≡ step_of (row_unit rows.now i held) seconds request }
{
    let p = request.unsigned_abs().min(rows[i].kept.most);
    let kind = storage::kind_of(rows, i, held, seconds, request, p, rows[i].kept.clear);
    if kind == OPEN {
        return storage::step_within(rows::unit_holding(rows, i, held), seconds, request);
    }
    let vars = if kind == IDLES {
        rows[i].kept.vars
    } else {
        rows[i].kept.full
    };
    storage::done(rows, i, held, seconds, kind, p, vars)
}

// One step of every unit that nothing leads, and their records.
fn give_own(
    f: Frame,
    rows: &[Row],
    m: Moment,
    requests: &[i32],
    stored: &mut [u64],
    room: &mut [u8],
)
    requires ready { Ready f rows.now }
    requires stored_len { length stored.old ≡ count (site_in f rows.now) }
    requires requests_len { length requests.now ≡ count (site_in f rows.now) }
    requires stored { Stored (site_in f rows.now) stored.old }
    requires unled { Unled m.lead }
    requires rows_in_bounds { m.at + step_bytes (site_in f rows.now) ≤ length room.old }
    ensures stored_after { (vs : List ℤ) → stored.new ≡ stored_after (site_in f rows.now) m.lead stored.old requests.now vs }
    ensures room_after { (vs : List ℤ) → room.new ≡ laid room.old m.at
        (records_of (count (site_in f rows.now)) (site_in f rows.now) m.lead m.step stored.old requests.now vs) }
{
    let head = f.head;
    for (i, &request) in requests.iter().enumerate() {
        let d = own(rows, i, stored[i], head.seconds, request);
        let left = d.stored;
        stored[i] = left;
        records::put_record(room, m.at + RECORD_BYTES * i, m.step, i as u8, request, d);
    }
}

// One step of every unit by what leads it, and their records.
fn give_led(
    f: Frame,
    rows: &[Row],
    m: Moment,
    requests: &[i32],
    stored: &mut [u64],
    vars: &mut [i32],
    room: &mut [u8],
)
    requires ready { Ready f rows.now }
    requires held { Held (site_in f rows.now) stored.old requests.now vars.old }
    requires modest { Modest m.lead }
    requires rows_in_bounds { m.at + step_bytes (site_in f rows.now) ≤ length room.old }
    ensures stored_after { stored.new ≡ stored_after (site_in f rows.now) m.lead stored.old requests.now vars.old }
    ensures vars_after { vars.new ≡ vars_after (site_in f rows.now) m.lead stored.old requests.now vars.old }
    ensures room_after { room.new ≡ laid room.old m.at
        (records_of (count (site_in f rows.now)) (site_in f rows.now) m.lead m.step stored.old requests.now vars.old) }
{
    for (i, &request) in requests.iter().enumerate() {
        let head = f.head;
        let lead = m.lead;
        let last = vars[i];
        let g = guided::give(rows, i, stored[i], head.seconds, request, lead, last);
        let o = g.outcome;
        let left = o.stored;
        stored[i] = left;
        let kept = g.vars;
        vars[i] = kept;
        records::put_record(room, m.at + RECORD_BYTES * i, m.step, i as u8, request, o);
    }
}

// One step of every unit, and their records.
fn give_all(
    f: Frame,
    rows: &[Row],
    m: Moment,
    requests: &[i32],
    stored: &mut [u64],
    vars: &mut [i32],
    room: &mut [u8],
)
    requires ready { Ready f rows.now }
    requires held { Held (site_in f rows.now) stored.old requests.now vars.old }
    requires modest { Modest m.lead }
    requires rows_in_bounds { m.at + step_bytes (site_in f rows.now) ≤ length room.old }
    ensures stored_after { stored.new ≡ stored_after (site_in f rows.now) m.lead stored.old requests.now vars.old }
    ensures vars_after { vars.new ≡ vars_after (site_in f rows.now) m.lead stored.old requests.now vars.old }
    ensures room_after { room.new ≡ laid room.old m.at
        (records_of (count (site_in f rows.now)) (site_in f rows.now) m.lead m.step stored.old requests.now vars.old) }
{
    let lead = m.lead;
    if lead.leads | lead.after | lead.fresh {
        give_led(f, rows, m, requests, stored, vars, room);
    } else {
        give_own(f, rows, m, requests, stored, room);
    }
}

// One step of a site: what stands afterwards, and the step's records.
pub fn step(
    f: Frame,
    rows: &[Row],
    m: Moment,
    stored: &mut [u64],
    requests: &mut [i32],
    vars: &mut [i32],
    room: &mut [u8],
)
    requires ready { Ready f rows.now }
    requires held { Held (site_in f rows.now) stored.old requests.old vars.old }
    requires modest { Modest m.lead }
    requires rows_in_bounds { m.at + step_bytes (site_in f rows.now) ≤ length room.old }
    ensures vars_after { standing stored.new requests.new vars.new ≡
        after (site_in f rows.now) m.lead (standing stored.old requests.old vars.old) m.reading }
    ensures room_after { room.new ≡ laid room.old m.at
        (records_by (site_in f rows.now) m.lead m.step (standing stored.old requests.old vars.old) m.reading) }
    ensures held_2 { Held (site_in f rows.now) stored.new requests.new vars.new }
{
    let r = m.reading;
    ask(f, rows, r, stored, requests);
    give_all(f, rows, m, requests, stored, vars, room);
}
