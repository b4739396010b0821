ghost use Rattle.std.specs.Prelude.{◌≡◌, ◌+◌, ◌≤◌, length};
ghost use Rattle.std.proofs.Math.Seq.{slice};
ghost use Rattle.octets.specs.BigEndian.{laid};
ghost use Rattle.stick.specs.Check.{reach_of, start};
ghost use Rattle.kept.specs.Layout.{state_size, tail_most, site_most, site_part, due_kept, volts_of, mark_in, progress_of, parts_of, numbers_of, top_of, stopped_bytes};
ghost use Rattle.kept.specs.Posts.{Sized};

use super::{HELD, Mark, SITE, SIZE, TAIL, pieces};
use fields::AT_VOLTAGE;
use site::Due;
use solar::Sun;
use stick::Reached;

// How far the fields of the site part go: what they say of the state between fields.
pub fn known(s: &[u8]) -> Reached
    requires { Sized s.now }
    ensures { result ≡ reach_of (length (site_part s.now)) start (site_part s.now) 0 }
{
    let n = octets::u16_at(s, 14) as usize;
    stick::reach(fields::first(), &s[SITE..SITE + n], 0)
}

// What is kept in bytes beside the lists.
pub fn marked(s: &[u8]) -> Mark
    requires { Sized s.now }
    ensures { result ≡ mark_in s.now }
{
    let r = known(s);
    let state = fields::gone_to(
        r.state,
        octets::u8_at(s, 13),
        r.state.left,
        octets::u32_at(s, 9),
    );
    let due = due_at(s);
    Mark {
        place: octets::u64_at(s, 1),
        state,
        site: octets::u16_at(s, 14) as usize,
        tail: octets::u8_at(s, 16) as usize,
        due,
    }
}

// The voltage that is kept, behind a voltage field alone.
fn voltage(s: &[u8]) -> Option<u16>
    requires { length s.now ≡ state_size }
    ensures { result ≡ (due_kept s.now).voltage }
{
    if octets::u8_at(s, 13) == AT_VOLTAGE {
        return Some(octets::u16_at(s, 25));
    }
    None
}

// What the step under way has so far.
fn due_at(s: &[u8]) -> Due
    requires { length s.now ≡ state_size }
    ensures { result ≡ due_kept s.now }
{
    Due {
        sun: Sun {
            irradiance: octets::u32_at(s, 17),
            temperature: octets::i32_at(s, 21),
        },
        voltage: voltage(s),
    }
}

// The number of a voltage, 0 where there is none.
fn volts(v: Option<u16>) -> u16
    ensures { result ≡ volts_of v }
{
    match v {
        None => 0,
        Some(x) => x,
    }
}

// Lays how far a run is that goes on.
fn put_progress(s: &mut [u8], m: Mark)
    requires { length s.old ≡ state_size }
    ensures { s.new ≡ laid s.old 0 (progress_of m) }
{
    octets::put_u8(s, 0, 0);
    octets::put_u64(s, 1, m.place);
    octets::put_u32(s, 9, m.state.steps);
    octets::put_u8(s, 13, m.state.stage);
}

// Lays how long its site part and its tail are, its sun and its voltage.
fn put_parts(s: &mut [u8], m: Mark)
    requires s_len { length s.old ≡ state_size }
    requires site_le_site_most { m.site ≤ site_most }
    requires tail_le_tail_most { m.tail ≤ tail_most }
    ensures { s.new ≡ laid s.old 14 (parts_of m) }
{
    octets::put_u16(s, 14, m.site as u16);
    octets::put_u8(s, 16, m.tail as u8);
    let due = m.due;
    octets::put_u32(s, 17, due.sun.irradiance);
    octets::put_i32(s, 21, due.sun.temperature);
    let voltage = due.voltage;
    octets::put_u16(s, 25, volts(voltage));
}

// Lays the numbers of a run that goes on.
fn put_numbers(s: &mut [u8], m: Mark)
    requires s_len { length s.old ≡ state_size }
    requires site_le_site_most { m.site ≤ site_most }
    requires tail_le_tail_most { m.tail ≤ tail_most }
    ensures { s.new ≡ laid s.old 0 (numbers_of m) }
{
    put_progress(s, m);
    put_parts(s, m);
}

// Lays the numbers and a tail.
pub fn put_top(s: &mut [u8], m: Mark, bytes: &[u8], from: usize, to: usize)
    requires s_len { length s.old ≡ state_size }
    requires site_le_site_most { m.site ≤ site_most }
    requires tail_le_tail_most { m.tail ≤ tail_most }
    requires tail_value { from + m.tail ≡ to }
    requires to_in_bounds { to ≤ length bytes.now }
    ensures { s.new ≡ laid s.old 0 (top_of m (slice from to bytes.now)) }
{
    let end = TAIL + m.tail;
    put_numbers(s, m);
    pieces::copy(s, TAIL, bytes, from, to);
    pieces::zero(s, end, HELD);
}

// Makes bytes the state of a run that was refused, or is over.
pub fn stop(s: &mut [u8], number: u8, place: u64, steps: u32)
    requires { length s.old ≡ state_size }
    ensures { s.new ≡ stopped_bytes number place steps }
{
    octets::put_u8(s, 0, number);
    octets::put_u64(s, 1, place);
    octets::put_u32(s, 9, steps);
    pieces::zero(s, 13, SIZE);
}
