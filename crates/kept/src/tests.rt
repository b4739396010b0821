ghost use Rattle.std.specs.Prelude.{◌≡◌, ◌≤◌, true, ◌&&◌, length};
ghost use Rattle.whole.specs.Over.{all_of};
ghost use Rattle.site.specs.Site.{count};
ghost use Rattle.stick.specs.Check.{reach_of, start};
ghost use Rattle.stick.specs.Site.{site_of, roofs_of};
ghost use Rattle.stick.specs.Check.{Accepted};
ghost use Rattle.kept.specs.Kept.{begun_at};
ghost use Rattle.kept.specs.Layout.{state_size, tail_most, site_most, steps_kept, stage_in, site_bytes, site_part, mark_in, units_kept, roofs_kept};
ghost use Rattle.kept.specs.Formed.{site_fits, place_fits, sun_fits, volt_fits, tail_fits, unit_fits, held_fits, flag_fits, var_fits, lists_fit, stands_fit, rest_clear, mark_fits, going, stopped, well_formed};
ghost use Rattle.kept.specs.Posts.{Sized};

use super::{
    FLAGS, HELD, Mark, PLACE_MOST, SITE, SITE_MOST, SIZE, TAIL, TAIL_MOST, VARS, numbers, pieces,
    stands,
};
use fields::{AT_END, AT_READING, AT_STEPS, AT_VOLTAGE, State};
use solar::Sun;
use stick::Reached;

// The steps have begun.
pub fn begun_at(stage: u8) -> bool
    ensures { result ≡ begun_at stage }
{
    (stage == AT_END) | (stage == AT_STEPS) | (stage == AT_READING) | (stage == AT_VOLTAGE)
}

// The site part: accepted fields alone and no steps, at the stage that is kept, or closed.
fn site_fits(r: Reached, stage: u8, steps: u32) -> bool
    ensures { result ≡ site_fits r stage steps }
{
    let at = r.state.stage;
    let fits = if begun_at(stage) {
        at == AT_END
    } else {
        (at == stage) & (steps == 0)
    };
    (r.number == 0) & (r.state.steps == 0) & fits
}

// The place is one that such a site, so many steps and such a tail lead to.
fn place_fits(place: u64, stage: u8, steps: u32, site: usize, tail: usize) -> bool
    requires site_le_site_most { site ≤ site_most }
    requires tail_le_tail_most { tail ≤ tail_most }
    ensures { result ≡ place_fits place stage steps site tail }
{
    let close = if begun_at(stage) { 7 } else { 0 };
    let head = site.saturating_sub(close);
    let weather = if stage == AT_READING { 19 } else { 0 };
    let voltage = if stage == AT_VOLTAGE { 5 } else { 0 };
    let end = if stage == AT_END { 7 } else { 0 };
    let beside = (head + weather + voltage + end + tail) as u64;
    let before = if stage == AT_VOLTAGE { 19 } else { 0 };
    let n = steps as u64;
    (beside + 3 * n <= place) & (place <= beside + 51 * n + before)
}

// A sun is kept where a weather may have come.
fn sun_fits(stage: u8, s: Sun) -> bool
    ensures { result ≡ sun_fits stage s }
{
    let size = s.temperature.unsigned_abs();
    if (stage == AT_READING) | (stage == AT_VOLTAGE) {
        (s.irradiance <= 100000000) & (size <= 100000000)
    } else {
        (s.irradiance == 0) & (size == 0)
    }
}

// A voltage is kept where one has come.
fn volt_fits(stage: u8, volts: u16) -> bool
    ensures { result ≡ volt_fits stage volts }
{
    if stage == AT_VOLTAGE {
        volts <= 20000
    } else {
        volts == 0
    }
}

// A tail is the beginning of a field that is waited for.
fn tail_fits(st: State, tail: &[u8]) -> bool
    ensures { result ≡ tail_fits st tail.now }
{
    if tail.len() == 0 {
        return true;
    }
    if st.stage == AT_END {
        return false;
    }
    fields::head(st, tail, 0) == 1
}

// No unit of a site holds more than it is rated for or is asked more than its rating.
fn within(site: &[u8], stored: &[u64], requests: &[i32]) -> bool
    requires accepted { Accepted site.now }
    requires stored_len { length stored.now ≡ count (site_of site.now) }
    requires requests_len { length requests.now ≡ count (site_of site.now) }
    ensures { result ≡ all_of (length stored.now) (unit_fits (site_of site.now) stored.now requests.now) }
{
    let mut ok = true;
    for i in 0..stored.len() {
        let u = stick::unit(site, i);
        let size = requests[i].unsigned_abs();
        ok = ok & ((stored[i] <= u.rated) & (size <= u.rating));
    }
    ok
}

// What stands is in its ranges, by the site.
fn held_fits(site: &[u8], stored: &[u64], requests: &[i32]) -> bool
    requires accepted { Accepted site.now }
    requires stored_len { length stored.now ≡ count (site_of site.now) }
    requires requests_len { length requests.now ≡ count (site_of site.now) }
    ensures { result ≡ held_fits (site_of site.now) stored.now requests.now }
{
    let a = members::asked_of(requests);
    within(site, stored, requests) & !(a.above & a.below)
}

// The first n flags are 0 or 1.
fn flags_fit(s: &[u8], n: usize) -> bool
    requires s_len { length s.now ≡ state_size }
    requires n_bound { n ≤ 64 }
    ensures { result ≡ all_of n (flag_fits s.now) }
{
    s[FLAGS..FLAGS + n].iter().all(|flag| *flag <= 1)
}

// The first n vars last requested are in their bounds.
fn vars_fit(s: &[u8], n: usize) -> bool
    requires s_len { length s.now ≡ state_size }
    requires n_bound { n ≤ 128 }
    ensures { result ≡ all_of n (var_fits s.now) }
{
    let mut ok = true;
    for i in 0..n {
        ok = ok & (octets::i32_at(s, VARS + 4 * i).unsigned_abs() <= 100000000);
    }
    ok
}

// What stands in a state whose steps have begun is in its ranges, with lists lent to read it into.
fn loaded_fit(s: &[u8], n: usize, stored: &mut [u64], requests: &mut [i32], roofs: usize) -> bool
    requires sized { Sized s.now }
    requires n_value { n ≡ site_bytes s.now }
    requires accepted { Accepted (site_part s.now) }
    requires stored_len { length stored.old ≡ count (site_of (site_part s.now)) }
    requires requests_len { length requests.old ≡ count (site_of (site_part s.now)) }
    requires roofs_value { roofs ≡ length (roofs_of (site_part s.now)) }
    ensures { result ≡ lists_fit s.now (length stored.old) roofs }
{
    stands::load(s, stored, requests);
    held_fits(&s[SITE..SITE + n], stored, requests)
        & flags_fit(s, roofs)
        & vars_fit(s, stored.len() + roofs)
}

// The same, with lists of its own.
fn stands_fit(s: &[u8], n: usize, units: usize, roofs: usize) -> bool
    requires sized { Sized s.now }
    requires n_value { n ≡ site_bytes s.now }
    requires accepted { Accepted (site_part s.now) }
    requires units_value { units ≡ count (site_of (site_part s.now)) }
    requires roofs_value { roofs ≡ length (roofs_of (site_part s.now)) }
    ensures { result ≡ lists_fit s.now units roofs }
{
    let mut stored = [0u64; 64];
    let mut requests = [0i32; 64];
    loaded_fit(s, n, &mut stored[0..units], &mut requests[0..units], roofs)
}

// What is not in use is 0.
fn rest_clear(s: &[u8], units: usize, roofs: usize) -> bool
    requires sized { Sized s.now }
    requires units_bound { units ≤ 64 }
    requires roofs_bound { roofs ≤ 64 }
    ensures { result ≡ rest_clear s.now units roofs }
{
    let n = octets::u16_at(s, 14) as usize;
    let t = octets::u8_at(s, 16) as usize;
    pieces::is_clear(s, TAIL + t, HELD)
        & pieces::is_clear(s, HELD + 12 * units, FLAGS)
        & pieces::is_clear(s, FLAGS + roofs, VARS)
        & pieces::is_clear(s, VARS + 4 * (units + roofs), SITE)
        & pieces::is_clear(s, SITE + n, SIZE)
}

// The lists of a state whose site part fits.
fn lists_fit(s: &[u8], stage: u8) -> bool
    requires sized { Sized s.now }
    requires stage_value { stage ≡ stage_in s.now }
    requires s_value { site_fits (reach_of (length (site_part s.now)) start (site_part s.now) 0) (stage_in s.now) (steps_kept s.now) ≡ true }
    ensures { result ≡ (stands_fit s.now && rest_clear s.now (units_kept s.now) (roofs_kept s.now)) }
{
    if !begun_at(stage) {
        return rest_clear(s, 0, 0);
    }
    let n = octets::u16_at(s, 14) as usize;
    let units = stick::units(&s[SITE..SITE + n]);
    let roofs = stick::roofs(&s[SITE..SITE + n]);
    stands_fit(s, n, units, roofs) & rest_clear(s, units, roofs)
}

// Place, sun, voltage and tail of a state.
fn mark_fits(s: &[u8], m: Mark) -> bool
    requires sized { Sized s.now }
    requires m_value { m ≡ mark_in s.now }
    ensures { result ≡ mark_fits s.now }
{
    let st = m.state;
    let t = m.tail;
    let due = m.due;
    place_fits(m.place, st.stage, st.steps, m.site, t)
        & sun_fits(st.stage, due.sun)
        & volt_fits(st.stage, octets::u16_at(s, 25))
        & tail_fits(st, &s[TAIL..TAIL + t])
}

// The bytes are the state of a run that goes on.
fn goes_on(s: &[u8]) -> bool
    requires { length s.now ≡ state_size }
    ensures { result ≡ going s.now }
{
    let steps = octets::u32_at(s, 9);
    let stage = octets::u8_at(s, 13);
    if (SITE_MOST < octets::u16_at(s, 14)) | (TAIL_MOST < octets::u8_at(s, 16)) | (65535 < steps) {
        return false;
    }
    if !site_fits(numbers::known(s), stage, steps) {
        return false;
    }
    mark_fits(s, numbers::marked(s)) & lists_fit(s, stage)
}

// The bytes are the state of a run that was refused, or is over.
fn stopped_there(s: &[u8]) -> bool
    requires { length s.now ≡ state_size }
    ensures { result ≡ stopped s.now }
{
    let n = octets::u8_at(s, 0);
    let steps = octets::u32_at(s, 9);
    (((1 <= n) & (n <= 9)) | (n == 12))
        & (steps <= 65535)
        & (octets::u64_at(s, 1) <= PLACE_MOST + 51 * (steps as u64))
        & pieces::is_clear(s, 13, SIZE)
}

// Whether bytes are a state.
pub fn well(s: &[u8]) -> bool
    ensures { result ≡ well_formed s.now }
{
    if s.len() != SIZE {
        return false;
    }
    if octets::u8_at(s, 0) == 0 {
        return goes_on(s);
    }
    stopped_there(s)
}
