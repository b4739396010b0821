ghost use Rattle.std.specs.Prelude.{◌≡◌, true, false, ℕ, ℤ, pos, length, [], ◌<◌, get_or};
ghost use Rattle.whole.specs.Over.{each};
ghost use Rattle.members.specs.Sums.{changed_of};
ghost use Rattle.rows.specs.Rows.{no_row, unit_by};
ghost use Rattle.members.specs.Posts.{Sharing, Sharable, fleet_by, next_by, shared_by};

use super::sized;
use rows::Row;
use rules::Wanted;

// P4: every request becomes 0. Whether one changed.
pub fn clear(requests: &mut [i32]) -> bool
    ensures requests_after { requests.new ≡ each (λ (i : ℕ) (r : ℤ). pos 0) requests.old }
    ensures value { result ≡ changed_of requests.old requests.new }
{
    let mut changed = false;
    for r in requests.iter_mut() {
        changed = changed | (*r != 0);
        *r = 0;
    }
    changed
}

// P6 for the unit of row i, which holds so much: 0 if it has nothing to give or no room, else its
// request and its share.
fn next_request(
    charging: bool,
    factor: u16,
    need: i64,
    weights: u64,
    units: &[Row],
    i: usize,
    held: u64,
    request: i32,
) -> i32
    requires i_in_bounds { i < length units.now }
    requires sharable { Sharable factor need weights (unit_by (get_or units.now i no_row)) }
    ensures { result ≡ next_by charging factor need weights (unit_by (get_or units.now i no_row)) held request }
{
    if rules::unable(charging, units[i].unit.rated, units[i].unit.reserve, held) {
        return 0;
    }
    let part = rules::share(factor, need, units[i].unit.weight, weights);
    rules::request_after(charging, units[i].unit.rating, request, part)
}

// P6 where each unit has a need of its own. Whether a request changed.
fn share_linked(
    charging: bool,
    factor: u16,
    w: Wanted,
    weights: u64,
    units: &[Row],
    stored: &[u64],
    requests: &mut [i32],
) -> bool
    requires { Sharing factor w weights (fleet_by units.now stored.now) (length requests.old) }
    ensures requests_after { requests.new ≡ each (shared_by charging factor w weights (fleet_by units.now stored.now)) requests.old }
    ensures value { result ≡ changed_of requests.old requests.new }
{
    let mut changed = false;
    for i in 0..requests.len() {
        let old = requests[i];
        let need = rules::own_need(w, units[i].unit.link);
        let next = next_request(charging, factor, need, weights, units, i, stored[i], old);
        changed = changed | (old != next);
        requests[i] = next;
    }
    changed
}

// P6 by watts, where all have one.
fn share_alike(
    charging: bool,
    factor: u16,
    w: Wanted,
    weights: u64,
    units: &[Row],
    stored: &[u64],
    requests: &mut [i32],
) -> bool
    requires current_value { w.current ≡ false }
    requires sharing { Sharing factor w weights (fleet_by units.now stored.now) (length requests.old) }
    ensures requests_after { requests.new ≡ each (shared_by charging factor w weights (fleet_by units.now stored.now)) requests.old }
    ensures value { result ≡ changed_of requests.old requests.new }
{
    let need = rules::own_need(w, 0);
    let mut changed = false;
    for i in 0..requests.len() {
        let old = requests[i];
        let next = next_request(charging, factor, need, weights, units, i, stored[i], old);
        changed = changed | (old != next);
        requests[i] = next;
    }
    changed
}

// P6 by current: from the size of the plain need, where F is not added and there is some weight.
fn share_current(
    charging: bool,
    factor: u16,
    w: Wanted,
    weights: u64,
    units: &[Row],
    stored: &[u64],
    requests: &mut [i32],
) -> bool
    requires current_value { w.current ≡ true }
    requires sharing { Sharing factor w weights (fleet_by units.now stored.now) (length requests.old) }
    ensures requests_after { requests.new ≡ each (shared_by charging factor w weights (fleet_by units.now stored.now)) requests.old }
    ensures value { result ≡ changed_of requests.old requests.new }
{
    if !w.other & (0 < weights) {
        if charging {
            return sized::share_sized(true, factor, w, weights, units, stored, requests);
        }
        return sized::share_sized(false, factor, w, weights, units, stored, requests);
    }
    share_linked(charging, factor, w, weights, units, stored, requests)
}

// P6: each unit's request, by its own need. Whether one changed.
pub fn share_all(
    charging: bool,
    factor: u16,
    w: Wanted,
    weights: u64,
    units: &[Row],
    stored: &[u64],
    requests: &mut [i32],
) -> bool
    requires { Sharing factor w weights (fleet_by units.now stored.now) (length requests.old) }
    ensures requests_after { requests.new ≡ each (shared_by charging factor w weights (fleet_by units.now stored.now)) requests.old }
    ensures value { result ≡ changed_of requests.old requests.new }
{
    if w.current {
        return share_current(charging, factor, w, weights, units, stored, requests);
    }
    share_alike(charging, factor, w, weights, units, stored, requests)
}
