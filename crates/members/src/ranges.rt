ghost use Rattle.std.specs.Prelude.{◌≡◌, ◌≤◌, length};
ghost use Rattle.whole.specs.Over.{all_of};
ghost use Rattle.members.specs.Ranges.{member_at, connection_at, lengths_ok, within_ratings, requests_ok, fleet_of};
ghost use Rattle.members.specs.Posts.{SameLengths};

use super::sums;

// Every unit's values are in their ranges; the lists have one length.
pub fn units_in(
    rated: &[u64],
    reserve: &[u64],
    stored: &[u64],
    rating: &[u32],
    weight: &[u16],
) -> bool
    requires { SameLengths (fleet_of rated.now reserve.now stored.now rating.now weight.now) (length rated.now) }
    ensures { result ≡ all_of (length rated.now) (member_at (fleet_of rated.now reserve.now stored.now rating.now weight.now)) }
{
    let mut ok = true;
    for i in 0..rated.len() {
        ok = ok & unit::member_in(rated[i], reserve[i], stored[i], rating[i], weight[i]);
    }
    ok
}

// Every connection is in its ranges; the lists have one length.
pub fn connections_in(phases: &[u8], volts: &[u16]) -> bool
    requires { length volts.now ≡ length phases.now }
    ensures { result ≡ all_of (length phases.now) (connection_at phases.now volts.now) }
{
    let mut ok = true;
    for i in 0..phases.len() {
        ok = ok & unit::connection_in(phases[i], volts[i]);
    }
    ok
}

// Five lent lists have the length n, which is 1 to 64.
pub fn lengths_in(
    rated: usize,
    reserve: usize,
    stored: usize,
    rating: usize,
    weight: usize,
    n: usize,
) -> bool
    ensures { result ≡ lengths_ok rated reserve stored rating weight n }
{
    ((1 <= n) & (n <= 64))
        & (rated == n)
        & (reserve == n)
        & (stored == n)
        & (rating == n)
        & (weight == n)
}

// No request is beyond its rating in size.
pub fn within_ratings(rating: &[u32], requests: &[i32]) -> bool
    requires { length rating.now ≡ length requests.now }
    ensures { result ≡ within_ratings rating.now requests.now }
{
    let mut ok = true;
    for i in 0..requests.len() {
        let size = requests[i].unsigned_abs();
        ok = ok & (size <= rating[i]);
    }
    ok
}

// No request is beyond its rating in size, and there are not requests of both signs.
pub fn requests_in(rating: &[u32], requests: &[i32]) -> bool
    requires rating_len { length rating.now ≡ length requests.now }
    requires requests_len_bound { length requests.now ≤ 64 }
    ensures { result ≡ requests_ok rating.now requests.now }
{
    let a = sums::asked(requests);
    within_ratings(rating, requests) & !(a.above & a.below)
}
