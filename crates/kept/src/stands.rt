ghost use Rattle.std.specs.Prelude.{◌≡◌, ◌≤◌, length};
ghost use Rattle.octets.specs.BigEndian.{laid};
ghost use Rattle.kept.specs.Layout.{state_size, held_place, flag_place, vars_place, store_at, request_at, flag_at, var_at, up_to, held_of, flags_of, vars_of, stands_of};

use super::{FLAGS, HELD, SITE, VARS, pieces};

// Fills lists with what the first units hold and are asked.
pub fn load(s: &[u8], stored: &mut [u64], requests: &mut [i32])
    requires s_len { length s.now ≡ state_size }
    requires stored_len_bound { length stored.old ≤ 64 }
    requires requests_len { length requests.old ≡ length stored.old }
    ensures stored_after { stored.new ≡ up_to (length stored.old) (store_at s.now) }
    ensures requests_after { requests.new ≡ up_to (length stored.old) (request_at s.now) }
{
    for i in 0..stored.len() {
        stored[i] = octets::u64_at(s, HELD + 12 * i);
        requests[i] = octets::i32_at(s, HELD + 12 * i + 8);
    }
}

// Fills a list with whether the first inverters are on.
pub fn load_on(s: &[u8], on: &mut [bool])
    requires s_len { length s.now ≡ state_size }
    requires on_len_bound { length on.old ≤ 64 }
    ensures { on.new ≡ up_to (length on.old) (flag_at s.now) }
{
    for (i, flag) in on.iter_mut().enumerate() {
        *flag = octets::u8_at(s, FLAGS + i) == 1;
    }
}

// Fills a list with the first vars last requested.
pub fn load_vars(s: &[u8], vars: &mut [i32])
    requires s_len { length s.now ≡ state_size }
    requires vars_len_bound { length vars.old ≤ 128 }
    ensures { vars.new ≡ up_to (length vars.old) (var_at s.now) }
{
    for (i, last) in vars.iter_mut().enumerate() {
        *last = octets::i32_at(s, VARS + 4 * i);
    }
}

// Lays what units hold and are asked.
fn put_held(s: &mut [u8], stored: &[u64], requests: &[i32])
    requires s_len { length s.old ≡ state_size }
    requires stored_len_bound { length stored.now ≤ 64 }
    requires requests_len { length requests.now ≡ length stored.now }
    ensures { s.new ≡ laid s.old held_place (held_of (length stored.now) stored.now requests.now) }
{
    for i in 0..stored.len() {
        octets::put_u64(s, HELD + 12 * i, stored[i]);
        octets::put_i32(s, HELD + 12 * i + 8, requests[i]);
    }
}

// Lays whether inverters are on.
fn put_flags(s: &mut [u8], on: &[bool])
    requires s_len { length s.old ≡ state_size }
    requires on_len_bound { length on.now ≤ 64 }
    ensures { s.new ≡ laid s.old flag_place (flags_of (length on.now) on.now) }
{
    for (i, &flag) in on.iter().enumerate() {
        octets::put_u8(s, FLAGS + i, flag as u8);
    }
}

// Lays the vars last requested.
fn put_vars(s: &mut [u8], vars: &[i32])
    requires s_len { length s.old ≡ state_size }
    requires vars_len_bound { length vars.now ≤ 128 }
    ensures { s.new ≡ laid s.old vars_place (vars_of (length vars.now) vars.now) }
{
    for (i, &last) in vars.iter().enumerate() {
        octets::put_i32(s, VARS + 4 * i, last);
    }
}

// Lays all that stands, and 0 behind it.
pub fn put_stands(s: &mut [u8], stored: &[u64], requests: &[i32], vars: &[i32], on: &[bool])
    requires s_len { length s.old ≡ state_size }
    requires stored_len_bound { length stored.now ≤ 64 }
    requires requests_len { length requests.now ≡ length stored.now }
    requires vars_len_bound { length vars.now ≤ 128 }
    requires on_len_bound { length on.now ≤ 64 }
    ensures { s.new ≡ laid s.old held_place (stands_of stored.now requests.now vars.now on.now) }
{
    let held = HELD + 12 * stored.len();
    let flags = FLAGS + on.len();
    let ends = VARS + 4 * vars.len();
    put_held(s, stored, requests);
    pieces::zero(s, held, FLAGS);
    put_flags(s, on);
    pieces::zero(s, flags, VARS);
    put_vars(s, vars);
    pieces::zero(s, ends, SITE);
}
