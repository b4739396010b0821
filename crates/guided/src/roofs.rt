ghost use Rattle.std.specs.Prelude.{◌≡◌, true, false, ◌&&◌, cond, pos};
ghost use Rattle.solar.specs.Step.{given};
ghost use Rattle.solar.specs.Posts.{roof_by, Roofed, Shining};
ghost use Rattle.guided.specs.Roofs.{led_inverter, lit_step, vars_kept};
ghost use Rattle.guided.specs.Units.{Guiding};

use super::Shone;
use lead::Lead;
use solar::{Given, Inverter, Sun};

// The inverter with the vars requested, and with the priority that counts.
fn led_inverter(l: Lead, v: Inverter, vars: i32) -> Inverter
    ensures { result ≡ led_inverter l v vars }
{
    Inverter {
        priority: lead::first(l, v.priority),
        var_request: vars,
        ..v
    }
}

// What a step gives with other vars, if it is on.
fn with_vars(g: Given, vars: i32) -> Given
    ensures { result ≡ given g.on g.watts (cond g.on vars (pos 0)) g.dc }
{
    Given {
        vars: if g.on { vars } else { 0 },
        ..g
    }
}

// One step led by what the circle leaves after the watts: these come first, so that a step with no
// vars has them, and the vars that are then requested fit beside them.
fn after_watts(
    v: Inverter,
    bytes: &[u8],
    warm: usize,
    efficiency: usize,
    on: bool,
    s: Sun,
    l: Lead,
    last: i32,
) -> Shone
    requires roofed { Roofed v bytes.now warm efficiency }
    requires shining { Shining s }
    requires guiding { Guiding l last }
    requires after_value { (l.fresh && l.after) ≡ true }
    ensures given_value { result.given ≡ lit_step l (roof_by v bytes.now warm efficiency) last on s }
    ensures vars_value { result.vars ≡ vars_kept l (roof_by v bytes.now warm efficiency) last on s }
{
    let led = led_inverter(l, v, 0);
    let g = solar::step_within(led, bytes, warm, efficiency, on, s);
    let asked = lead::requested(l, v.var_request, last, v.kva, g.watts.unsigned_abs());
    Shone {
        given: with_vars(g, asked),
        vars: lead::kept(l, last, asked),
    }
}

// One step whose vars are requested whatever its watts are.
fn before_watts(
    v: Inverter,
    bytes: &[u8],
    warm: usize,
    efficiency: usize,
    on: bool,
    s: Sun,
    l: Lead,
    last: i32,
) -> Shone
    requires roofed { Roofed v bytes.now warm efficiency }
    requires shining { Shining s }
    requires guiding { Guiding l last }
    requires after_value { (l.fresh && l.after) ≡ false }
    ensures given_value { result.given ≡ lit_step l (roof_by v bytes.now warm efficiency) last on s }
    ensures vars_value { result.vars ≡ vars_kept l (roof_by v bytes.now warm efficiency) last on s }
{
    let asked = lead::requested(l, v.var_request, last, v.kva, 0);
    let led = led_inverter(l, v, asked);
    Shone {
        given: solar::step_within(led, bytes, warm, efficiency, on, s),
        vars: lead::kept(l, last, asked),
    }
}

// One step of an inverter that is in its ranges, whose curves lie at two places of bytes, by what
// leads it and the vars last requested of it.
pub fn light(
    v: Inverter,
    bytes: &[u8],
    warm: usize,
    efficiency: usize,
    on: bool,
    s: Sun,
    l: Lead,
    last: i32,
) -> Shone
    requires roofed { Roofed v bytes.now warm efficiency }
    requires shining { Shining s }
    requires guiding { Guiding l last }
    ensures given_value { result.given ≡ lit_step l (roof_by v bytes.now warm efficiency) last on s }
    ensures vars_value { result.vars ≡ vars_kept l (roof_by v bytes.now warm efficiency) last on s }
{
    if !(l.leads | l.after | l.fresh) {
        return Shone {
            given: solar::step_within(v, bytes, warm, efficiency, on, s),
            vars: last,
        };
    }
    if l.fresh & l.after {
        return after_watts(v, bytes, warm, efficiency, on, s, l, last);
    }
    before_watts(v, bytes, warm, efficiency, on, s, l, last)
}
