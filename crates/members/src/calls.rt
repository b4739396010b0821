ghost use Rattle.std.specs.Prelude.{◌≡◌, ◌≤◌, length};
ghost use Rattle.members.specs.Posts.{Linked, fleet_by, none_calls_by, all_in_band_by};

use rows::Row;
use rules::Wanted;

// P3 by current, over the units.
fn no_unit_calls(charging: bool, w: Wanted, units: &[Row], stored: &[u64]) -> bool
    requires { Linked w (fleet_by units.now stored.now) }
    ensures { result ≡ none_calls_by charging w (fleet_by units.now stored.now) (length units.now) }
{
    for row in units {
        let need = rules::own_need(w, row.unit.link);
        if !rules::no_call(charging, need) {
            return false;
        }
    }
    true
}

// P3: no unit's own need calls. By watts all have one need; by current none calls where the plain need
// does not and F is not added.
pub fn none_calls(charging: bool, w: Wanted, units: &[Row], stored: &[u64]) -> bool
    requires in_bounds { 1 ≤ length units.now }
    requires linked { Linked w (fleet_by units.now stored.now) }
    ensures { result ≡ none_calls_by charging w (fleet_by units.now stored.now) (length units.now) }
{
    if w.current {
        if !w.other & rules::no_call(charging, w.plain) {
            return true;
        }
        return no_unit_calls(charging, w, units, stored);
    }
    rules::no_call(charging, rules::own_need(w, 0))
}

// P5 by current, over the units.
fn units_in_band(band: u32, w: Wanted, units: &[Row], stored: &[u64]) -> bool
    requires { Linked w (fleet_by units.now stored.now) }
    ensures { result ≡ all_in_band_by band w (fleet_by units.now stored.now) (length units.now) }
{
    for row in units {
        let link = row.unit.link;
        let own = rules::own_band(w.current, link, band);
        if !rules::in_band(own, rules::own_need(w, link)) {
            return false;
        }
    }
    true
}

// P5: every unit is within its own band. By watts all have one band and one need.
pub fn all_in_band(band: u32, w: Wanted, units: &[Row], stored: &[u64]) -> bool
    requires in_bounds { 1 ≤ length units.now }
    requires linked { Linked w (fleet_by units.now stored.now) }
    ensures { result ≡ all_in_band_by band w (fleet_by units.now stored.now) (length units.now) }
{
    if w.current {
        return units_in_band(band, w, units, stored);
    }
    rules::in_band(band as u64, rules::own_need(w, 0))
}
