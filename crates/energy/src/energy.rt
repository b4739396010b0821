ghost use Rattle.std.specs.Prelude.{◌≡◌, ◌≤◌};
ghost use Rattle.energy.specs.Limits.{removed_by, added_by, deliverable, takeable};
ghost use Rattle.unit.specs.Ranges.{Ranged};

use unit::Unit;

// The joules that delivering p watts removes from the store; both quotients are rounded up.
pub fn removed(u: Unit, seconds: u32, p: u64) -> u64
    requires ranged { Ranged u seconds }
    requires p_bound { p ≤ 100000000 }
    ensures { result ≡ removed_by u seconds p }
{
    let inverter = u.inverter as u64;
    let discharge = u.discharge as u64;
    let d = (p * 10000 + (inverter - 1)) / inverter;
    let drawn = (d + (u.dc_loss as u64)) * ((seconds as u64) * 10000);
    (drawn + (discharge - 1)) / discharge
}

// The joules that taking p watts adds to the store.
pub fn added(u: Unit, seconds: u32, p: u64) -> u64
    requires ranged { Ranged u seconds }
    requires p_bound { p ≤ 100000000 }
    ensures { result ≡ added_by u seconds p }
{
    let d = p * (u.inverter as u64) / 10000;
    let idle = u.dc_loss as u64;
    if d <= idle {
        return 0;
    }
    (d - idle) * (seconds as u64) * (u.charge as u64) / 10000
}

// The largest watt count up to p whose removal the store above the reserve allows, 0 for none. A
// removal is at most what is available exactly when the watts are at most a quotient, so that no
// count is tried.
pub fn deliver(u: Unit, seconds: u32, p: u64) -> u64
    requires { Ranged u seconds }
    ensures { result ≡ deliverable u seconds p }
{
    if u.stored <= u.reserve {
        return 0;
    }
    let available = u.stored - u.reserve;
    let drawn = available * (u.discharge as u64) / ((seconds as u64) * 10000);
    let idle = u.dc_loss as u64;
    if drawn < idle {
        return 0;
    }
    p.min((drawn - idle) * (u.inverter as u64) / 10000)
}

// The largest watt count up to p whose addition the room below the rated energy allows; by
// quotients, as above.
pub fn take_in(u: Unit, seconds: u32, p: u64) -> u64
    requires { Ranged u seconds }
    ensures { result ≡ takeable u seconds p }
{
    let room = u.rated - u.stored;
    let kept = ((room + 1) * 10000 - 1) / ((seconds as u64) * (u.charge as u64));
    let d = kept + (u.dc_loss as u64);
    p.min(((d + 1) * 10000 - 1) / (u.inverter as u64))
}
