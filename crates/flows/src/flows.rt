ghost use Rattle.std.specs.Prelude.{◌≡◌, ◌≤◌, pos, nat_abs, ◌-ℤ◌};
ghost use Rattle.flows.specs.declared.Flow.TheVariants.{Idle};
ghost use Rattle.flows.specs.Flows.{discharged, charged, flow_of, inverter_watts, stored_of, loss_of};
ghost use Rattle.unit.specs.Ranges.{Ranged};
ghost use Rattle.flows.specs.Posts.{Moving, move_by};

use super::{Flow, Move};
use unit::Unit;

// What moves where the unit idles.
fn idle(u: Unit, seconds: u32) -> Move
    ensures { result ≡ move_by u seconds Idle }
{
    Move {
        flow: Flow::Idle,
        moved: unit::idle_draw(u),
    }
}

// What a request of p watts out makes flow where the store may not cover all of it.
fn discharge_less(u: Unit, seconds: u32, p: u64) -> Move
    requires ranged { Ranged u seconds }
    requires p_bound { p ≤ 100000000 }
    requires reserve_le_stored { u.reserve ≤ u.stored }
    ensures { result ≡ move_by u seconds (discharged u seconds p) }
{
    let x = energy::deliver(u, seconds, p);
    if x == 0 {
        return idle(u, seconds);
    }
    Move {
        flow: Flow::Out(x),
        moved: energy::removed(u, seconds, x),
    }
}

// What a request of p watts out makes flow, and what that moves: all of it, where the store covers
// that.
fn discharge(u: Unit, seconds: u32, p: u64) -> Move
    requires ranged { Ranged u seconds }
    requires p_bound { p ≤ 100000000 }
    ensures { result ≡ move_by u seconds (discharged u seconds p) }
{
    if p == 0 {
        return idle(u, seconds);
    }
    if u.stored < u.reserve {
        return idle(u, seconds);
    }
    let all = energy::removed(u, seconds, p);
    if u.stored - u.reserve < all {
        return discharge_less(u, seconds, p);
    }
    Move {
        flow: Flow::Out(p),
        moved: all,
    }
}

// What a request of p watts in makes flow where the store may not have room for all of it.
fn charge_less(u: Unit, seconds: u32, p: u64) -> Move
    requires ranged { Ranged u seconds }
    requires p_bound { p ≤ 100000000 }
    ensures { result ≡ move_by u seconds (charged u seconds p) }
{
    let x = energy::take_in(u, seconds, p);
    let moved = energy::added(u, seconds, x);
    if moved == 0 {
        return idle(u, seconds);
    }
    Move {
        flow: Flow::In(x),
        moved,
    }
}

// What a request of p watts in makes flow, and what that moves: all of it, where the store has room
// for that.
fn charge(u: Unit, seconds: u32, p: u64) -> Move
    requires ranged { Ranged u seconds }
    requires p_bound { p ≤ 100000000 }
    ensures { result ≡ move_by u seconds (charged u seconds p) }
{
    let all = energy::added(u, seconds, p);
    if u.rated - u.stored < all {
        return charge_less(u, seconds, p);
    }
    if all == 0 {
        return idle(u, seconds);
    }
    Move {
        flow: Flow::In(p),
        moved: all,
    }
}

// What flows in a step, and what that moves, worked out once for the numbers below.
pub fn flow(u: Unit, seconds: u32, request: i32) -> Move
    requires { Ranged u seconds }
    ensures { result ≡ move_by u seconds (flow_of u seconds request) }
{
    let p = energy::held(u, request) as u64;
    if request < 0 {
        return charge(u, seconds, p);
    }
    discharge(u, seconds, p)
}

// The inverter's watts.
pub fn watts(u: Unit, seconds: u32, flow: Flow, moved: u64) -> i32
    requires { Moving u seconds flow moved }
    ensures { result ≡ inverter_watts u flow }
{
    match flow {
        Flow::Out(x) => whole::signed32(false, x as u32),
        Flow::In(x) => whole::signed32(true, x as u32),
        Flow::Idle => whole::signed32(true, moved as u32),
    }
}

// The store after the step.
pub fn stored(u: Unit, seconds: u32, flow: Flow, moved: u64) -> u64
    requires { Moving u seconds flow moved }
    ensures { result ≡ stored_of u seconds flow }
{
    match flow {
        Flow::Out(_) => u.stored - moved,
        Flow::In(_) => u.stored + moved,
        Flow::Idle => u.stored,
    }
}

// The loss of the step in joules.
pub fn loss(u: Unit, seconds: u32, flow: Flow, moved: u64) -> u64
    requires { Moving u seconds flow moved }
    ensures { result ≡ loss_of u seconds flow }
{
    match flow {
        Flow::Out(x) => moved - x * (seconds as u64),
        Flow::In(x) => x * (seconds as u64) - moved,
        Flow::Idle => moved * (seconds as u64),
    }
}

// The watts at the grid: the inverter's, less the loss there.
pub fn at_grid(u: Unit, carried: i32) -> i32
    requires carried_bound { nat_abs carried ≤ 100000000 }
    requires grid_loss_bound { u.grid_loss ≤ 10000000 }
    ensures { result ≡ carried -ℤ pos u.grid_loss }
{
    let lost = whole::signed32(false, u.grid_loss);
    carried - lost
}
