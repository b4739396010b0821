ghost use Rattle.std.specs.Prelude.{◌≡◌, true, false, [], ◌≤◌, ◌<◌, length, get_or};
ghost use Rattle.whole.specs.Over.{each};
ghost use Rattle.rows.specs.Rows.{no_row, unit_by};
ghost use Rattle.members.specs.Sums.{changed_of};
ghost use Rattle.members.specs.Posts.{Sharing, SharableBySize, fleet_by, sized_by, shared_by};

use rows::Row;
use rules::Wanted;

// P6 by current for the unit of row i, which holds so much, from the sign and the size of the plain
// need: 0 if it has nothing to give or no room, else its request and its share.
fn next_sized(
    charging: bool,
    below: bool,
    factor: u16,
    size: u64,
    weights: u64,
    units: &[Row],
    i: usize,
    held: u64,
    request: i32,
) -> i32
    requires i_in_bounds { i < length units.now }
    requires sharable_by_size { SharableBySize factor size weights (unit_by (get_or units.now i no_row)) }
    ensures { result ≡ sized_by charging below factor size weights (unit_by (get_or units.now i no_row)) held request }
{
    if rules::unable(charging, units[i].unit.rated, units[i].unit.reserve, held) {
        return 0;
    }
    let own = size * (units[i].unit.link as u64) / 1000;
    let part = rules::share_size(factor, own, units[i].unit.weight, weights);
    let share = whole::signed64(below, part);
    rules::request_after(charging, units[i].unit.rating, request, share)
}

// P6 by current where F is not added and there is some weight. Whether a request changed.
pub fn share_sized(
    charging: bool,
    factor: u16,
    w: Wanted,
    weights: u64,
    units: &[Row],
    stored: &[u64],
    requests: &mut [i32],
) -> bool
    requires current_value { w.current ≡ true }
    requires other_value { w.other ≡ false }
    requires le_weights { 1 ≤ weights }
    requires sharing { Sharing factor w weights (fleet_by units.now stored.now) (length requests.old) }
    ensures requests_after { requests.new ≡ each (shared_by charging factor w weights (fleet_by units.now stored.now)) requests.old }
    ensures value { result ≡ changed_of requests.old requests.new }
{
    let below = whole::below_zero64(w.plain);
    let size = w.plain.unsigned_abs();
    let mut changed = false;
    for i in 0..requests.len() {
        let old = requests[i];
        let held = stored[i];
        let next = next_sized(charging, below, factor, size, weights, units, i, held, old);
        changed = changed | (old != next);
        requests[i] = next;
    }
    changed
}
