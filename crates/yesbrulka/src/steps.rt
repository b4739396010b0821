// A reading in watts, and one step of a unit or of an inverter.
ghost use Rattle.std.specs.Prelude.{◌≡◌, ℤ};
ghost use Rattle.whole.specs.Call.{number_of, held_after};
ghost use Rattle.reading.specs.Conversion.{watts_of, watts_call};
ghost use Rattle.unit.specs.declared.Unit.{Unit};
ghost use Rattle.yesbrulka.specs.Calls.{unit_of, StepTold, inverter_of, lit_lent, LitTold};

use solar::{Inverter, Weather};
use unit::Unit;

// The whole watts of a kW double: 0 and the watts, or 6 for a reading that cannot be used.
#[unsafe(no_mangle)]
pub extern "C" fn yb_watts(kw: f64, watts: &mut i32) -> u32
    ensures value { result ≡ number_of (watts_call (watts_of kw)) }
    ensures watts_after { watts.new ≡ held_after (watts_call (watts_of kw)) (λ (w : ℤ). w) watts.old }
{
    let Some(w) = reading::converted(kw) else {
        return 6;
    };
    *watts = w;
    0
}

// One step of one unit: 0, the watts and vars it gives, the energy it then holds and the loss; or 5
// or 10.
#[unsafe(no_mangle)]
pub extern "C" fn yb_step(
    seconds: u32,
    rated: u64,
    reserve: u64,
    stored: u64,
    rating: u32,
    kva: u32,
    idle_loss: u32,
    var_request: i32,
    weight: u16,
    inverter: u16,
    charge: u16,
    discharge: u16,
    priority: u8,
    request: i32,
    watts: &mut i32,
    vars: &mut i32,
    after: &mut u64,
    loss: &mut u64,
) -> u32
    ensures { StepTold 1 (unit_of rated reserve stored rating kva idle_loss var_request weight inverter charge discharge priority kva kva) seconds request result watts vars after loss }
{
    yb_step_as(
        1,
        seconds,
        rated,
        reserve,
        stored,
        rating,
        kva,
        idle_loss,
        var_request,
        weight,
        inverter,
        charge,
        discharge,
        priority,
        kva,
        kva,
        request,
        watts,
        vars,
        after,
        loss,
    )
}

// The same of a unit of an edition, with var limits of its own from edition 2 on.
#[unsafe(no_mangle)]
pub extern "C" fn yb_step_as(
    edition: u8,
    seconds: u32,
    rated: u64,
    reserve: u64,
    stored: u64,
    rating: u32,
    kva: u32,
    idle_loss: u32,
    var_request: i32,
    weight: u16,
    inverter: u16,
    charge: u16,
    discharge: u16,
    priority: u8,
    provide: u32,
    absorb: u32,
    request: i32,
    watts: &mut i32,
    vars: &mut i32,
    after: &mut u64,
    loss: &mut u64,
) -> u32
    ensures { StepTold edition (unit_of rated reserve stored rating kva idle_loss var_request weight inverter charge discharge priority provide absorb) seconds request result watts vars after loss }
{
    let u = Unit {
        rated,
        reserve,
        stored,
        rating,
        kva,
        dc_loss: idle_loss,
        var_request,
        weight,
        inverter,
        charge,
        discharge,
        priority,
        provide,
        absorb,
        grid_loss: 0,
        link: 0,
    };
    match storage::step_as(edition, u, seconds, request) {
        Ok(o) => {
            let given = o.watts;
            let side = o.vars;
            *watts = given;
            *vars = side;
            *after = o.stored;
            *loss = o.loss;
            0
        }
        Err(r) => r.number as u32,
    }
}

// One step of one inverter: 0, whether it is on afterwards (1) or not (0), watts at the grid, vars
// and DC power in W; or 10, 5 or 6.
#[unsafe(no_mangle)]
pub extern "C" fn yb_solar(
    array: u32,
    kva: u32,
    cut_in: u16,
    cut_out: u16,
    limit: u16,
    var_request: i32,
    priority: u8,
    warm_x: &[i32],
    warm_y: &[i32],
    eff_x: &[i32],
    eff_y: &[i32],
    irradiance: f64,
    temperature: f64,
    on: u8,
    after: &mut u8,
    watts: &mut i32,
    vars: &mut i32,
    dc: &mut u64,
) -> u32
    ensures { LitTold (lit_lent (inverter_of array kva cut_in cut_out limit var_request priority) warm_x warm_y eff_x eff_y on irradiance temperature) result after watts vars dc }
{
    let v = Inverter {
        array,
        kva,
        cut_in,
        cut_out,
        limit,
        var_request,
        priority,
    };
    let w = Weather {
        irradiance,
        temperature,
    };
    match solar::step(v, warm_x, warm_y, eff_x, eff_y, on, w) {
        Ok(g) => {
            let given = g.watts;
            let side = g.vars;
            *after = g.on as u8;
            *watts = given;
            *vars = side;
            *dc = g.dc;
            0
        }
        Err(r) => r.number as u32,
    }
}
