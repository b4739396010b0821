ghost use Rattle.std.specs.Prelude.{◌≡◌, true, ◌≤◌};
ghost use Rattle.storage.specs.Step.{step_of, stepped_of, stepped_as};
ghost use Rattle.unit.specs.Ranges.{unit_in, Ranged};
ghost use Rattle.storage.specs.Posts.{idle_vars, rest_of};

use super::Outcome;
use unit::Unit;
use whole::Refusal;

// One step of a unit that is in its ranges.
pub fn step_within(u: Unit, seconds: u32, request: i32) -> Outcome
    requires { Ranged u seconds }
    ensures { result ≡ step_of u seconds request }
{
    let m = flows::flow_of(u, seconds, request);
    let flow = m.flow;
    let moved = m.moved;
    let carried = flows::watts(u, seconds, flow, moved);
    let lost = (u.grid_loss as u64) * (seconds as u64);
    Outcome {
        watts: flows::at_grid(u, carried),
        vars: energy::vars(u, carried),
        stored: flows::stored(u, seconds, flow, moved),
        loss: flows::loss(u, seconds, flow, moved) + lost,
    }
}

// The vars of a unit that idles.
pub fn idle_vars(u: Unit) -> i32
    requires { unit_in u ≡ true }
    ensures { result ≡ idle_vars u }
{
    energy::vars(u, whole::signed32(true, unit::idle_draw(u) as u32))
}

// One step of a unit that is asked nothing, by what it draws while it idles, its vars then, and what
// it holds.
pub fn rest(draw: u32, vars: i32, held: u64, seconds: u32) -> Outcome
    requires { draw ≤ 110000000 }
    ensures { result ≡ rest_of draw vars held seconds }
{
    Outcome {
        watts: whole::signed32(true, draw),
        vars,
        stored: held,
        loss: (draw as u64) * (seconds as u64),
    }
}

// One step of any numbers: refused are values out of range (5) and a request beyond the rating (10).
pub fn step(u: Unit, seconds: u32, request: i32) -> Result<Outcome, Refusal>
    ensures { result ≡ stepped_of u seconds request }
{
    if !(unit::seconds_in(seconds) & unit::unit_in(u)) {
        return Err(whole::refused(5));
    }
    if u.rating < request.unsigned_abs() {
        return Err(whole::refused(10));
    }
    Ok(step_within(u, seconds, request))
}

// One step of a unit of an edition: refused is also an edition that there is not (5).
pub fn step_as(edition: u8, u: Unit, seconds: u32, request: i32) -> Result<Outcome, Refusal>
    ensures { result ≡ stepped_as edition u seconds request }
{
    if !unit::edition_in(edition) {
        return Err(whole::refused(5));
    }
    step(unit::in_edition(edition, u), seconds, request)
}
