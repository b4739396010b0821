// What a complete file says when it is asked.
ghost use Rattle.std.specs.Prelude.{◌≡◌};
ghost use Rattle.whole.specs.Call.{number_of, held_after};
ghost use Rattle.unit.specs.declared.Unit.{Unit};
ghost use Rattle.unit.specs.Ranges.{idle_loss_of};
ghost use Rattle.site.specs.declared.Head.{Head};
ghost use Rattle.ask.specs.declared.Connection.{Connection};
ghost use Rattle.ask.specs.Says.{units_said, inverters_said, seconds_said, file_study, file_study_leaves};
ghost use Rattle.yesbrulka.specs.Calls.{held, StudyTold, head_said, unit_said, connection_told};

use unit::Unit;

// What a file says: the number of its units, 0 for a file that the check refuses.
#[unsafe(no_mangle)]
pub extern "C" fn yb_units(file: &[u8]) -> u32
    ensures { result ≡ units_said file.now }
{
    ask::units(file)
}

// What a file says: the number of its inverters, 0 for a file that the check refuses.
#[unsafe(no_mangle)]
pub extern "C" fn yb_inverters(file: &[u8]) -> u32
    ensures { result ≡ inverters_said file.now }
{
    ask::inverters(file)
}

// What a file says: the seconds of a step, 0 for a file that the check refuses.
#[unsafe(no_mangle)]
pub extern "C" fn yb_seconds(file: &[u8]) -> u32
    ensures { result ≡ seconds_said file.now }
{
    ask::seconds(file)
}

// What a file says: 0, the controller's settings and the phase choice; or the check's number.
#[unsafe(no_mangle)]
pub extern "C" fn yb_settings(
    file: &[u8],
    mode: &mut u8,
    target: &mut i32,
    band: &mut u32,
    factor: &mut u16,
    phase: &mut u8,
) -> u32
    ensures value { result ≡ number_of (head_said file.now) }
    ensures mode_after { mode.new ≡ held_after (head_said file.now) (λ (h : Head). h.settings.mode) mode.old }
    ensures target_after { target.new ≡ held_after (head_said file.now) (λ (h : Head). h.settings.target) target.old }
    ensures band_after { band.new ≡ held_after (head_said file.now) (λ (h : Head). h.settings.band) band.old }
    ensures factor_after { factor.new ≡ held_after (head_said file.now) (λ (h : Head). h.settings.factor) factor.old }
    ensures phase_after { phase.new ≡ held_after (head_said file.now) (λ (h : Head). h.phase) phase.old }
{
    match ask::head(file) {
        Ok(h) => {
            let s = h.settings;
            let aim = s.target;
            *mode = s.mode;
            *target = aim;
            *band = s.band;
            *factor = s.factor;
            *phase = h.phase;
            0
        }
        Err(r) => r.number as u32,
    }
}

// What a file says: 0 and the values of a unit; or the check's number, or 10 for a unit outside the
// fleet.
#[unsafe(no_mangle)]
pub extern "C" fn yb_unit(
    file: &[u8],
    unit: u32,
    rated: &mut u64,
    reserve: &mut u64,
    stored: &mut u64,
    rating: &mut u32,
    kva: &mut u32,
    idle_loss: &mut u32,
    var_request: &mut i32,
    weight: &mut u16,
    inverter: &mut u16,
    charge: &mut u16,
    discharge: &mut u16,
    priority: &mut u8,
) -> u32
    ensures value { result ≡ number_of (unit_said file.now unit) }
    ensures rated_after { rated.new ≡ held_after (unit_said file.now unit) (λ (u : Unit). u.rated) rated.old }
    ensures reserve_after { reserve.new ≡ held_after (unit_said file.now unit) (λ (u : Unit). u.reserve) reserve.old }
    ensures stored_after { stored.new ≡ held_after (unit_said file.now unit) (λ (u : Unit). u.stored) stored.old }
    ensures rating_after { rating.new ≡ held_after (unit_said file.now unit) (λ (u : Unit). u.rating) rating.old }
    ensures kva_after { kva.new ≡ held_after (unit_said file.now unit) (λ (u : Unit). u.kva) kva.old }
    ensures idle_loss_after { idle_loss.new ≡ held_after (unit_said file.now unit) (λ (u : Unit). idle_loss_of u) idle_loss.old }
    ensures var_request_after { var_request.new ≡ held_after (unit_said file.now unit) (λ (u : Unit). u.var_request) var_request.old }
    ensures weight_after { weight.new ≡ held_after (unit_said file.now unit) (λ (u : Unit). u.weight) weight.old }
    ensures inverter_after { inverter.new ≡ held_after (unit_said file.now unit) (λ (u : Unit). u.inverter) inverter.old }
    ensures charge_after { charge.new ≡ held_after (unit_said file.now unit) (λ (u : Unit). u.charge) charge.old }
    ensures discharge_after { discharge.new ≡ held_after (unit_said file.now unit) (λ (u : Unit). u.discharge) discharge.old }
    ensures priority_after { priority.new ≡ held_after (unit_said file.now unit) (λ (u : Unit). u.priority) priority.old }
{
    match ask::unit(file, unit) {
        Ok(u) => {
            let vars = u.var_request;
            let lost = unit::idle_loss(u);
            *rated = u.rated;
            *reserve = u.reserve;
            *stored = u.stored;
            *rating = u.rating;
            *kva = u.kva;
            *idle_loss = lost;
            *var_request = vars;
            *weight = u.weight;
            *inverter = u.inverter;
            *charge = u.charge;
            *discharge = u.discharge;
            *priority = u.priority;
            0
        }
        Err(r) => r.number as u32,
    }
}

// What a file says: 0 and the var limits of a unit; or the check's number, or 10 for a unit outside
// the fleet.
#[unsafe(no_mangle)]
pub extern "C" fn yb_var_limits(file: &[u8], unit: u32, provide: &mut u32, absorb: &mut u32) -> u32
    ensures value { result ≡ number_of (unit_said file.now unit) }
    ensures provide_after { provide.new ≡ held_after (unit_said file.now unit) (λ (u : Unit). u.provide) provide.old }
    ensures absorb_after { absorb.new ≡ held_after (unit_said file.now unit) (λ (u : Unit). u.absorb) absorb.old }
{
    match ask::unit(file, unit) {
        Ok(u) => {
            *provide = u.provide;
            *absorb = u.absorb;
            0
        }
        Err(r) => r.number as u32,
    }
}

// What a file says: 0 and the connection of a unit; or the check's number, or 10 for a unit outside
// the fleet and where the file has no connections.
#[unsafe(no_mangle)]
pub extern "C" fn yb_connection(file: &[u8], unit: u32, phases: &mut u8, volts: &mut u16) -> u32
    ensures value { result ≡ number_of (connection_told file.now unit) }
    ensures phases_after { phases.new ≡ held_after (connection_told file.now unit) (λ (c : Connection). c.phases) phases.old }
    ensures volts_after { volts.new ≡ held_after (connection_told file.now unit) (λ (c : Connection). c.volts) volts.old }
{
    match ask::connection_of(file, unit) {
        Ok(c) => {
            *phases = c.phases;
            *volts = c.volts;
            0
        }
        Err(r) => r.number as u32,
    }
}

// The settling study over a file's fleet and settings, in mode 1 whatever the file's mode: 0, the
// requests it ends on, whether it settled (1 or 0) and the passes that changed a request; or the
// check's number, 10 or 5.
#[unsafe(no_mangle)]
pub extern "C" fn yb_study(
    file: &[u8],
    load: i64,
    budget: u32,
    requests: &mut [i32],
    settled: &mut u8,
    passes: &mut u32,
) -> u32
    ensures study_told { StudyTold (file_study (held file) load budget requests.old) result settled passes }
    ensures requests_after { requests.new ≡ file_study_leaves file.now load budget requests.old }
{
    match ask::study(file, load, budget, requests) {
        Ok(found) => {
            *settled = found.settled as u8;
            *passes = found.passes;
            0
        }
        Err(r) => r.number as u32,
    }
}
