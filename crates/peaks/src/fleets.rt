ghost use Rattle.std.specs.Prelude.{◌≡◌, ◌+◌, ◌≤◌, ◌<◌, pos, ◌+ℤ◌, length};
ghost use Rattle.reading.specs.Choice.{meter_of};
ghost use Rattle.site.specs.Site.{count};
ghost use Rattle.lead.specs.Lead.{Modest};
ghost use Rattle.fleet.specs.Step.{standing, asked_by, stored_after, vars_after, after};
ghost use Rattle.fleet.specs.Posts.{Ready, Stored, Held, site_in};
ghost use Rattle.tally.specs.Posts.{Within};
ghost use Rattle.peaks.specs.Figures.{not_met, sums_of, sums_by};
ghost use Rattle.peaks.specs.Posts.{with_unit, of_kind};

use fleet::Frame;
use lead::Lead;
use reading::Reading;
use rows::Row;
use storage::Outcome;
use tally::Sums;

// G8: a unit's request is not met, by its watts at the grid and its loss there.
fn not_met(request: i32, watts: i32, grid_loss: u32) -> bool
    ensures { result ≡ not_met request (watts +ℤ pos grid_loss) }
{
    let inverter = (watts as i64) + (grid_loss as i64);
    (request != 0) & ((request as i64) != inverter)
}

// One unit more than n: whether its request is not met, and what it does.
fn with_unit(n: usize, s: Sums, missed: bool, o: Outcome) -> Sums
    requires n_bound { n < 64 }
    requires within { Within n s }
    requires stored_bound { o.stored ≤ 10000000000000 }
    requires loss_bound { o.loss ≤ 200000000000000 }
    ensures value { result ≡ with_unit s missed o }
    ensures within_2 { Within (n + 1) result }
{
    Sums {
        power: s.power + (o.watts as i64),
        stored: s.stored + o.stored,
        loss: s.loss + o.loss,
        missed: s.missed | missed,
    }
}

// One step of every unit: what each then holds, the vars then kept, and the sums over the fleet.
fn give_all(
    f: Frame,
    rows: &[Row],
    l: Lead,
    requests: &[i32],
    stored: &mut [u64],
    vars: &mut [i32],
) -> Sums
    requires ready { Ready f rows.now }
    requires held { Held (site_in f rows.now) stored.old requests.now vars.old }
    requires modest { Modest l }
    ensures stored_after { stored.new ≡ stored_after (site_in f rows.now) l stored.old requests.now vars.old }
    ensures vars_after { vars.new ≡ vars_after (site_in f rows.now) l stored.old requests.now vars.old }
    ensures value { result ≡ sums_of (count (site_in f rows.now)) (site_in f rows.now) l stored.old requests.now vars.old }
    ensures within { Within 64 result }
{
    let mut sums = Sums {
        power: 0,
        stored: 0,
        loss: 0,
        missed: false,
    };
    for (i, &request) in requests.iter().enumerate() {
        let head = f.head;
        let last = vars[i];
        let g = fleet::give(rows, i, head.seconds, stored[i], request, l, last);
        let o = g.outcome;
        let left = o.stored;
        stored[i] = left;
        let kept = g.vars;
        vars[i] = kept;
        let missed = not_met(request, o.watts, rows[i].unit.grid_loss);
        sums = with_unit(i, sums, missed, o);
    }
    sums
}

// Whether a reading is of the kind that the mode goes by.
fn fits(r: Reading, mode: u8) -> bool
    ensures { result ≡ of_kind r mode }
{
    match r {
        Reading::Missing => false,
        Reading::Power(_) => mode < 4,
        Reading::Current(_) => 4 <= mode,
    }
}

// The requests after a reading, by what the meter shows of it: one pass on that measure, none where
// it is silent or the reading is of the other kind.
fn ask(f: Frame, rows: &[Row], r: Reading, m: Option<i64>, stored: &[u64], requests: &mut [i32])
    requires ready { Ready f rows.now }
    requires stored_len { length stored.now ≡ count (site_in f rows.now) }
    requires requests_len { length requests.old ≡ count (site_in f rows.now) }
    requires stored { Stored (site_in f rows.now) stored.now }
    requires m_value { m ≡ meter_of r f.head.phase }
    ensures { requests.new ≡ asked_by (site_in f rows.now) stored.now requests.old r }
{
    let Some(z) = m else {
        return;
    };
    let head = f.head;
    let s = head.settings;
    if !fits(r, s.mode) {
        return;
    }
    let t = f.totals;
    controller::pass_within(s, z, t, rows, stored, requests);
}

// One step of a fleet: the pass on its reading, none if that is missing, then one step of every unit.
pub fn step(
    f: Frame,
    rows: &[Row],
    r: Reading,
    m: Option<i64>,
    l: Lead,
    stored: &mut [u64],
    requests: &mut [i32],
    vars: &mut [i32],
) -> Sums
    requires ready { Ready f rows.now }
    requires held { Held (site_in f rows.now) stored.old requests.old vars.old }
    requires modest { Modest l }
    requires m_value { m ≡ meter_of r f.head.phase }
    ensures vars_after { standing stored.new requests.new vars.new ≡
        after (site_in f rows.now) l (standing stored.old requests.old vars.old) r }
    ensures value { result ≡ sums_by (site_in f rows.now) l (standing stored.old requests.old vars.old) r }
    ensures within { Within 64 result }
    ensures held_2 { Held (site_in f rows.now) stored.new requests.new vars.new }
{
    ask(f, rows, r, m, stored, requests);
    give_all(f, rows, l, requests, stored, vars)
}
