ghost use Rattle.std.specs.Prelude.{◌≡◌, ◌≤◌, ◌<◌, [], map, length, get_or};
ghost use Rattle.unit.specs.Ranges.{Ranged, holding};
ghost use Rattle.rows.specs.Rows.{no_row, unit_by, units_by};
ghost use Rattle.guided.specs.Units.{led_step, vars_kept};
ghost use Rattle.guided.specs.Units.{Guiding};
ghost use Rattle.storage.specs.Posts.{Rested};
ghost use Rattle.site.specs.Ranges.{Sited};
ghost use Rattle.fleet.specs.Step.{standing, at_first};
ghost use Rattle.fleet.specs.Posts.{Ready, site_by};

use super::Frame;
use guided::Led;
use lead::Lead;
use rows::Row;
use site::Head;

// What no step changes, worked out once: the sums over the fleet, beside what the file says.
pub fn framed(head: Head, units: &[Row]) -> Frame
    requires sited { Sited (site_by head units.now) }
    requires rested { Rested head.seconds units.now }
    ensures head_value { result.head ≡ head }
    ensures ready { Ready result units.now }
{
    Frame {
        head,
        totals: members::summed(units),
    }
}

// Each unit's own var request.
fn own_vars(units: &[Row], vars: &mut [i32])
    requires { length vars.old ≡ length units.now }
    ensures { vars.new ≡ map (λ u. u.var_request) (units_by units.now) }
{
    for (i, own) in vars.iter_mut().enumerate() {
        *own = units[i].unit.var_request;
    }
}

// What stands at first: each unit holds what its row says, is asked nothing, and its own var request
// counts as last requested.
pub fn start(units: &[Row], stored: &mut [u64], requests: &mut [i32], vars: &mut [i32])
    requires stored_len { length stored.old ≡ length units.now }
    requires requests_len { length requests.old ≡ length units.now }
    requires vars_len { length vars.old ≡ length units.now }
    ensures { standing stored.new requests.new vars.new ≡ at_first (units_by units.now) }
{
    rows::stores(units, stored);
    members::clear(requests);
    own_vars(units, vars);
}

// One step of the unit of row i, which holds so much and is asked a request, by what leads it and the
// vars last requested of it, all by what its row keeps.
pub fn give(
    units: &[Row],
    i: usize,
    seconds: u32,
    held: u64,
    request: i32,
    l: Lead,
    last: i32,
) -> Led
    requires i_in_bounds { i < length units.now }
    requires rested { Rested seconds units.now }
    requires ranged { Ranged (unit_by (get_or units.now i no_row)) seconds }
    requires held_bound { held ≤ (unit_by (get_or units.now i no_row)).rated }
    requires guiding { Guiding l last }
    ensures outcome_value { result.outcome ≡ led_step l (holding (unit_by (get_or units.now i no_row)) held) last seconds request }
    ensures vars_value { result.vars ≡ vars_kept l (holding (unit_by (get_or units.now i no_row)) held) last seconds request }
{
    if !(l.leads | l.after | l.fresh) {
        return Led {
            outcome: storage::step_of(units, i, held, seconds, request),
            vars: last,
        };
    }
    guided::give(units, i, held, seconds, request, l, last)
}
