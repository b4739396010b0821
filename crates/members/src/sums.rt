ghost use Rattle.std.specs.Prelude.{◌≡◌, ◌≤◌, length, nat_abs};
ghost use Rattle.members.specs.Sums.{total};
ghost use Rattle.unit.specs.declared.Unit.{Unit};
ghost use Rattle.members.specs.Posts.{WithRequest, AskedOf, SignsOf, Addable, TotalsOf, column_by, spent_by};

use super::Totals;
use rows::Row;
use rules::Asked;

// The sum of a fleet's energies.
pub fn energy(xs: &[u64]) -> u64
    requires { Addable xs.now }
    ensures { result ≡ total (length xs.now) xs.now }
{
    let mut sum: u64 = 0;
    for x in xs {
        sum += *x;
    }
    sum
}

// P4: the whole fleet has nothing above its reserve, or, charging, no room.
pub fn is_spent(charging: bool, rated: u64, reserve: u64, stored: &[u64]) -> bool
    requires { Addable stored.now }
    ensures { result ≡ spent_by charging rated reserve stored.now }
{
    let held = energy(stored);
    rules::unable(charging, rated, reserve, held)
}

// The sums over a fleet that no step changes.
pub fn summed(units: &[Row]) -> Totals
    requires addable { Addable (column_by (λ (u : Unit). u.rated) units.now) }
    requires addable_2 { Addable (column_by (λ (u : Unit). u.reserve) units.now) }
    ensures { TotalsOf units.now result }
{
    let mut rated: u64 = 0;
    let mut reserve: u64 = 0;
    let mut weight: u64 = 0;
    for row in units {
        rated += row.unit.rated;
        reserve += row.unit.reserve;
        weight += row.unit.weight as u64;
    }
    Totals {
        rated,
        reserve,
        weight,
    }
}

// What is asked with one request more.
fn with_request(a: Asked, r: i32) -> Asked
    requires { nat_abs a.sum ≤ 1000000000000 }
    ensures { WithRequest a r result }
{
    Asked {
        sum: a.sum + (r as i64),
        above: a.above | (0 < r),
        below: a.below | (r < 0),
    }
}

// Whether some request is above 0 and some below, with 0 for F.
pub fn signs(requests: &[i32]) -> Asked
    ensures { SignsOf requests.now result }
{
    let mut above = false;
    let mut below = false;
    for &r in requests {
        above = above | (0 < r);
        below = below | (r < 0);
    }
    Asked {
        sum: 0,
        above,
        below,
    }
}

// F, and whether some request is above 0 and some below.
pub fn asked(requests: &[i32]) -> Asked
    requires { length requests.now ≤ 64 }
    ensures { AskedOf requests.now result }
{
    let mut a = Asked {
        sum: 0,
        above: false,
        below: false,
    };
    for &r in requests {
        a = with_request(a, r);
    }
    a
}
