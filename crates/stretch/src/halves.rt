ghost use Rattle.std.specs.Prelude.{◌≡◌, false, ◌+◌, ◌-◌, ◌*◌, ◌≤◌, length, take, drop, replicate};
ghost use Rattle.octets.specs.BigEndian.{laid};
ghost use Rattle.rows.specs.Rows.{units_by};
ghost use Rattle.solar.specs.Posts.{Shining};
ghost use Rattle.lead.specs.Lead.{Modest};
ghost use Rattle.records.specs.Records.{roof_record_bytes};
ghost use Rattle.roofs.specs.Roofs.{own_vars, on_after, vars_after, roofs_by};
ghost use Rattle.roofs.specs.Posts.{RoofsThere, VarsHeld, roofs_here};
ghost use Rattle.fleet.specs.Step.{standing, at_first, after, records_by, step_bytes};
ghost use Rattle.fleet.specs.Posts.{Ready, Held, site_in};

use fleet::{Frame, Moment};
use rows::Row;
use solar::Sun;

// One list has the vars last requested of the units and behind them those of the inverters. One step
// of every unit changes the first part,
pub fn step_units(
    f: Frame,
    rows: &[Row],
    m: Moment,
    stored: &mut [u64],
    requests: &mut [i32],
    vars: &mut [i32],
    room: &mut [u8],
)
    requires ready { Ready f rows.now }
    requires held { Held (site_in f rows.now) stored.old requests.old (take (length requests.old) vars.old) }
    requires modest { Modest m.lead }
    requires rows_in_bounds { m.at + step_bytes (site_in f rows.now) ≤ length room.old }
    ensures vars_after { standing stored.new requests.new (take (length requests.new) vars.new) ≡
        after (site_in f rows.now) m.lead
        (standing stored.old requests.old (take (length requests.old) vars.old)) m.reading }
    ensures vars_unchanged { drop (length requests.new) vars.new ≡ drop (length requests.old) vars.old }
    ensures room_after { room.new ≡ laid room.old m.at
        (records_by (site_in f rows.now) m.lead m.step
        (standing stored.old requests.old (take (length requests.old) vars.old)) m.reading) }
    ensures held_2 { Held (site_in f rows.now) stored.new requests.new (take (length requests.new) vars.new) }
{
    let n = requests.len();
    fleet::step(f, rows, m, stored, requests, &mut vars[0..n], room);
}

// one of every inverter the last,
pub fn step_roofs(
    site: &[u8],
    first: usize,
    m: Moment,
    sun: Sun,
    on: &mut [bool],
    vars: &mut [i32],
    room: &mut [u8],
)
    requires roofs_there { RoofsThere site.now first (length on.old) }
    requires on_in_bounds { length on.old ≤ length vars.old }
    requires vars_held { VarsHeld (length on.old) (drop (length vars.old - length on.old) vars.old) }
    requires shining { Shining sun }
    requires modest { Modest m.lead }
    requires on_in_bounds_2 { m.at + roof_record_bytes * length on.old ≤ length room.old }
    ensures on_after { on.new ≡
        on_after (roofs_here site.now first (length on.old)) m.lead sun on.old (drop (length vars.old - length on.old) vars.old) }
    ensures vars_unchanged { take (length vars.old - length on.old) vars.new ≡ take (length vars.old - length on.old) vars.old }
    ensures vars_after { drop (length vars.old - length on.old) vars.new ≡
        vars_after (roofs_here site.now first (length on.old)) m.lead sun on.old (drop (length vars.old - length on.old) vars.old) }
    ensures vars_held_2 { VarsHeld (length on.old) (drop (length vars.old - length on.old) vars.new) }
    ensures room_after { room.new ≡ laid room.old m.at
        (roofs_by (roofs_here site.now first (length on.old)) m.lead m.step sun on.old
        (drop (length vars.old - length on.old) vars.old)) }
{
    let n = vars.len() - on.len();
    roofs::step(
        site,
        first,
        m.step,
        sun,
        m.lead,
        on,
        &mut vars[n..],
        room,
        m.at,
    );
}

// and at first the own var requests stand in both.
pub fn begin(
    site: &[u8],
    first: usize,
    rows: &[Row],
    stored: &mut [u64],
    requests: &mut [i32],
    vars: &mut [i32],
    on: &mut [bool],
)
    requires roofs_there { RoofsThere site.now first (length on.old) }
    requires stored_len { length stored.old ≡ length rows.now }
    requires requests_len { length requests.old ≡ length rows.now }
    requires vars_len { length vars.old ≡ length rows.now + length on.old }
    ensures vars_after { standing stored.new requests.new (take (length requests.new) vars.new) ≡ at_first (units_by rows.now) }
    ensures vars_after_2 { drop (length requests.new) vars.new ≡ own_vars (roofs_here site.now first (length on.old)) }
    ensures vars_held { VarsHeld (length on.old) (drop (length requests.new) vars.new) }
    ensures on_after { on.new ≡ replicate (length on.old) false }
{
    let n = requests.len();
    fleet::start(rows, stored, requests, &mut vars[0..n]);
    roofs::own_vars(site, first, &mut vars[n..]);
    roofs::turn_off(on);
}
