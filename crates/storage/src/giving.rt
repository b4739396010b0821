ghost use Rattle.std.specs.Prelude.{◌≡◌, ◌≤◌, ◌<◌, length};
ghost use Rattle.unit.specs.Ranges.{Ranged};
ghost use Rattle.flows.specs.declared.Flow.TheVariants.{Out, In};
ghost use Rattle.flows.specs.Posts.{Carried};
ghost use Rattle.storage.specs.Step.{step_of};
ghost use Rattle.storage.specs.Posts.{Rested, row_unit, kind_out, kind_in, kind_of, flow_by, outcome_with};

use super::{GIVES, IDLES, OPEN, Outcome, TAKES, steps};
use rows::Row;
use unit::Unit;

// What becomes of a request to give p watts, as far as the row of the unit tells.
fn kind_out(units: &[Row], i: usize, held: u64, seconds: u32, p: u32, clear: u32) -> u8
    requires i_in_bounds { i < length units.now }
    requires rested { Rested seconds units.now }
    requires ranged { Ranged (row_unit units.now i held) seconds }
    requires p_bound { p ≤ 100000000 }
    ensures { result ≡ kind_out (row_unit units.now i held) seconds p clear }
{
    if (p == 0) | (held < units[i].kept.floor) {
        return IDLES;
    }
    let all = energy::removed(rows::unit_holding(units, i, held), seconds, p as u64);
    if (held - units[i].unit.reserve < all) | (clear < p) {
        return OPEN;
    }
    GIVES
}

// The same of a request to take p watts.
fn kind_in(units: &[Row], i: usize, held: u64, seconds: u32, p: u32, clear: u32) -> u8
    requires i_in_bounds { i < length units.now }
    requires rested { Rested seconds units.now }
    requires ranged { Ranged (row_unit units.now i held) seconds }
    requires p_bound { p ≤ 100000000 }
    ensures { result ≡ kind_in (row_unit units.now i held) seconds p clear }
{
    if units[i].kept.top < held {
        return IDLES;
    }
    let all = energy::added(rows::unit_holding(units, i, held), seconds, p as u64);
    if all == 0 {
        return IDLES;
    }
    if (units[i].unit.rated - held < all) | (clear < p) {
        return OPEN;
    }
    TAKES
}

// What becomes of a request that the unit of row i holds at p watts, as far as its row tells. Watts
// above `clear` are left open.
pub fn kind_of(
    units: &[Row],
    i: usize,
    held: u64,
    seconds: u32,
    request: i32,
    p: u32,
    clear: u32,
) -> u8
    requires i_in_bounds { i < length units.now }
    requires rested { Rested seconds units.now }
    requires ranged { Ranged (row_unit units.now i held) seconds }
    requires p_bound { p ≤ 100000000 }
    ensures { result ≡ kind_of (row_unit units.now i held) seconds request p clear }
{
    if request < 0 {
        return kind_in(units, i, held, seconds, p, clear);
    }
    kind_out(units, i, held, seconds, p, clear)
}

// What a unit does that gives x watts, with these vars.
fn given(u: Unit, seconds: u32, x: u32, vars: i32) -> Outcome
    requires ranged { Ranged u seconds }
    requires carried { Carried u seconds (Out x) }
    ensures { result ≡ outcome_with u seconds (Out x) vars }
{
    let moved = energy::removed(u, seconds, x as u64);
    let lost = (u.grid_loss as u64) * (seconds as u64);
    Outcome {
        watts: flows::at_grid(u, whole::signed32(false, x)),
        vars,
        stored: u.stored - moved,
        loss: moved - (x as u64) * (seconds as u64) + lost,
    }
}

// What a unit does that takes x watts, with these vars.
fn taken(u: Unit, seconds: u32, x: u32, vars: i32) -> Outcome
    requires ranged { Ranged u seconds }
    requires carried { Carried u seconds (In x) }
    ensures { result ≡ outcome_with u seconds (In x) vars }
{
    let moved = energy::added(u, seconds, x as u64);
    let lost = (u.grid_loss as u64) * (seconds as u64);
    Outcome {
        watts: flows::at_grid(u, whole::signed32(true, x)),
        vars,
        stored: u.stored + moved,
        loss: (x as u64) * (seconds as u64) - moved + lost,
    }
}

// What the unit of row i does by the kind of its request, held at p watts, and with these vars.
pub fn done(
    units: &[Row],
    i: usize,
    held: u64,
    seconds: u32,
    kind: u8,
    p: u32,
    vars: i32,
) -> Outcome
    requires i_in_bounds { i < length units.now }
    requires rested { Rested seconds units.now }
    requires ranged { Ranged (row_unit units.now i held) seconds }
    requires carried { Carried (row_unit units.now i held) seconds (flow_by kind p) }
    ensures { result ≡ outcome_with (row_unit units.now i held) seconds (flow_by kind p) vars }
{
    if kind == GIVES {
        return given(rows::unit_holding(units, i, held), seconds, p, vars);
    }
    if kind == TAKES {
        return taken(rows::unit_holding(units, i, held), seconds, p, vars);
    }
    steps::rest(units[i].kept.draw, vars, held, seconds)
}

// One step of the unit of row i, which holds so much: that of the unit, by what its row keeps.
pub fn step_of(units: &[Row], i: usize, held: u64, seconds: u32, request: i32) -> Outcome
    requires i_in_bounds { i < length units.now }
    requires rested { Rested seconds units.now }
    requires ranged { Ranged (row_unit units.now i held) seconds }
    ensures { result ≡ step_of (row_unit units.now i held) seconds request }
{
    let p = request.unsigned_abs().min(units[i].kept.most);
    let kind = kind_of(units, i, held, seconds, request, p, units[i].kept.clear);
    if kind == OPEN {
        return steps::step_within(rows::unit_holding(units, i, held), seconds, request);
    }
    let vars = if kind == IDLES {
        units[i].kept.vars
    } else {
        units[i].kept.full
    };
    done(units, i, held, seconds, kind, p, vars)
}
