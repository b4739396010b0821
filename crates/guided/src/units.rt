ghost use Rattle.std.specs.Prelude.{◌≡◌, true, false, ◌&&◌, [], ◌≤◌, ◌<◌, length, get_or, pos, nat_abs, ◌+ℤ◌};
ghost use Rattle.unit.specs.Ranges.{Ranged};
ghost use Rattle.rows.specs.Rows.{no_row, unit_by, draw_by};
ghost use Rattle.storage.specs.Step.{step_of};
ghost use Rattle.storage.specs.Posts.{Rested, row_unit};
ghost use Rattle.guided.specs.Units.{led_unit, led_step, vars_kept};
ghost use Rattle.guided.specs.Units.{Guiding};
ghost use Rattle.guided.specs.Posts.{left_by, size_by, LedFrom};

use super::Led;
use lead::Lead;
use rows::Row;
use storage::{IDLES, OPEN, Outcome};
use unit::Unit;

// The unit with the vars requested, and with the priority that counts.
fn led_unit(l: Lead, u: Unit, vars: i32) -> Unit
    ensures { result ≡ led_unit l u vars }
{
    Unit {
        priority: lead::first(l, u.priority),
        var_request: vars,
        ..u
    }
}

// The inverter's watts: those at the grid, and the loss there.
fn carried(watts: i32, loss: u32) -> i32
    requires watts_bound { nat_abs watts ≤ 110000000 }
    requires loss_bound { loss ≤ 10000000 }
    ensures { result ≡ watts +ℤ pos loss }
{
    watts + (loss as i32)
}

// One step led by what the circle leaves after the watts, by the whole rule: these come first, and
// once the store has cut them the vars are requested.
fn open_after(u: Unit, seconds: u32, request: i32, l: Lead, last: i32) -> Led
    requires ranged { Ranged u seconds }
    requires guiding { Guiding l last }
    requires after_value { (l.fresh && l.after) ≡ true }
    ensures outcome_value { result.outcome ≡ led_step l u last seconds request }
    ensures vars_value { result.vars ≡ vars_kept l u last seconds request }
{
    let o = storage::step_within(led_unit(l, u, 0), seconds, request);
    let watts = carried(o.watts, u.grid_loss);
    let asked = lead::requested(l, u.var_request, last, u.kva, watts.unsigned_abs());
    let vars = energy::vars(led_unit(l, u, asked), watts);
    let kept = lead::kept(l, last, asked);
    Led {
        outcome: Outcome { vars, ..o },
        vars: kept,
    }
}

// What the circle of the unit of row i leaves beside its watts, by the kind of a request that is held
// at p watts: where it idles the row keeps that.
fn left(units: &[Row], i: usize, kind: u8, p: u32) -> u32
    requires { i < length units.now }
    ensures { result ≡ left_by (get_or units.now i no_row) kind p }
{
    if kind == IDLES {
        return units[i].kept.rest;
    }
    whole::leg(units[i].unit.kva, p)
}

// One step led by what the circle leaves after the watts, by what the unit's row keeps where that
// tells.
fn after_watts(
    units: &[Row],
    i: usize,
    held: u64,
    seconds: u32,
    request: i32,
    l: Lead,
    last: i32,
) -> Led
    requires i_in_bounds { i < length units.now }
    requires rested { Rested seconds units.now }
    requires ranged { Ranged (row_unit units.now i held) seconds }
    requires guiding { Guiding l last }
    requires after_value { (l.fresh && l.after) ≡ true }
    ensures outcome_value { result.outcome ≡ led_step l (row_unit units.now i held) last seconds request }
    ensures vars_value { result.vars ≡ vars_kept l (row_unit units.now i held) last seconds request }
{
    let u = rows::unit_holding(units, i, held);
    let p = request.unsigned_abs().min(u.kva);
    let kind = storage::kind_of(units, i, held, seconds, request, p, u32::MAX);
    if kind == OPEN {
        return open_after(u, seconds, request, l, last);
    }
    let asked = lead::part(l, left(units, i, kind, p));
    let size = energy::limited(led_unit(l, u, asked));
    let vars = whole::signed32(whole::below_zero32(asked), size);
    Led {
        outcome: storage::done(units, i, held, seconds, kind, p, vars),
        vars: lead::kept(l, last, asked),
    }
}

// The size of the watts of the inverter of row i, by the kind of a request that is held at p watts.
fn size_by(units: &[Row], i: usize, kind: u8, p: u32) -> u32
    requires i_in_bounds { i < length units.now }
    requires grid_loss_bound { (unit_by (get_or units.now i no_row)).grid_loss ≤ draw_by (get_or units.now i no_row) }
    ensures { result ≡ size_by (get_or units.now i no_row) kind p }
{
    if kind == IDLES {
        return units[i].kept.draw - units[i].unit.grid_loss;
    }
    p
}

// One step of a led unit, which is that of row i but for its vars and its priority.
fn step_led(units: &[Row], i: usize, held: u64, seconds: u32, request: i32, v: Unit) -> Outcome
    requires i_in_bounds { i < length units.now }
    requires rested { Rested seconds units.now }
    requires ranged { Ranged (row_unit units.now i held) seconds }
    requires led_from { LedFrom (row_unit units.now i held) v }
    requires var_request_bound { nat_abs v.var_request ≤ 100000000 }
    requires priority_bound { v.priority ≤ 1 }
    ensures { result ≡ step_of v seconds request }
{
    let p = energy::held(v, request);
    let kind = storage::kind_of(units, i, held, seconds, request, p, u32::MAX);
    if kind == OPEN {
        return storage::step_within(v, seconds, request);
    }
    let watts = whole::signed32(false, size_by(units, i, kind, p));
    storage::done(units, i, held, seconds, kind, p, energy::vars(v, watts))
}

// One step whose vars are requested whatever its watts are.
fn before_watts(
    units: &[Row],
    i: usize,
    held: u64,
    seconds: u32,
    request: i32,
    l: Lead,
    last: i32,
) -> Led
    requires i_in_bounds { i < length units.now }
    requires rested { Rested seconds units.now }
    requires ranged { Ranged (row_unit units.now i held) seconds }
    requires guiding { Guiding l last }
    requires after_value { (l.fresh && l.after) ≡ false }
    ensures outcome_value { result.outcome ≡ led_step l (row_unit units.now i held) last seconds request }
    ensures vars_value { result.vars ≡ vars_kept l (row_unit units.now i held) last seconds request }
{
    let u = rows::unit_holding(units, i, held);
    let asked = lead::requested(l, u.var_request, last, u.kva, 0);
    Led {
        outcome: step_led(units, i, held, seconds, request, led_unit(l, u, asked)),
        vars: lead::kept(l, last, asked),
    }
}

// One step of the unit of row i, which holds so much, by what leads it and the vars last requested of
// it.
pub fn give(
    units: &[Row],
    i: usize,
    held: u64,
    seconds: u32,
    request: i32,
    l: Lead,
    last: i32,
) -> Led
    requires i_in_bounds { i < length units.now }
    requires rested { Rested seconds units.now }
    requires ranged { Ranged (row_unit units.now i held) seconds }
    requires guiding { Guiding l last }
    ensures outcome_value { result.outcome ≡ led_step l (row_unit units.now i held) last seconds request }
    ensures vars_value { result.vars ≡ vars_kept l (row_unit units.now i held) last seconds request }
{
    if l.fresh & l.after {
        return after_watts(units, i, held, seconds, request, l, last);
    }
    before_watts(units, i, held, seconds, request, l, last)
}
