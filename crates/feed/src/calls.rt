ghost use Rattle.std.specs.Prelude.{◌≡◌, cond, not, ◌+◌, ◌-◌, ◌*◌, ◌≤◌, eqb, length, None, Some};
ghost use Rattle.feed.specs.Answers.{written_by, own_number, start_number, start_leaves, room_for, end_number, end_leaves, end_writes, place_told, steps_told};

use fields::{AT_END, State};
use kept::{Mark, SITE, SIZE};
use records::{END_BYTES, RECORD_BYTES, ROOF_RECORD_BYTES};
use site::Due;
use solar::Sun;

// What a state answers before its call is looked at: 0 where the run goes on.
pub fn own_number(s: &[u8]) -> u8
    ensures { result ≡ own_number s.now }
{
    if kept::well(s) {
        return octets::u8_at(s, 0);
    }
    10
}

// The bytes of the records of the steps between two states between fields.
pub fn needed(st: State, next: State) -> u64
    requires steps_le_steps { st.steps ≤ next.steps }
    requires steps_bound { next.steps ≤ 65535 }
    requires units_bound { next.units ≤ 64 }
    requires left_bound { next.left ≤ 64 }
    ensures { result ≡ (40 * next.units + 29 * (64 - next.left)) * (next.steps - st.steps) }
{
    let units = RECORD_BYTES * (next.units as usize);
    let size = units + ROOF_RECORD_BYTES * ((64 - next.left) as usize);
    (size as u64) * ((next.steps - st.steps) as u64)
}

// The bytes that feeding a chunk would write, 0 if it would be refused.
pub fn room(s: &[u8], chunk: &[u8]) -> u64
    ensures { result ≡ room_for s.now chunk.now }
{
    if own_number(s) != 0 {
        return 0;
    }
    let m = kept::marked(s);
    let r = intake::gone(s, m, chunk);
    if 1 < r.number {
        return 0;
    }
    let st = m.state;
    let next = r.state;
    needed(st, next)
}

// Why a file may not end here: 1 within a field, 8 before its end field.
fn end_fault(m: Mark) -> Option<u8>
    ensures { result ≡ cond (not (eqb m.tail 0)) (Some 1) (cond (eqb m.state.stage 0) None (Some 8)) }
{
    if m.tail != 0 {
        return Some(1);
    }
    if m.state.stage == AT_END {
        None
    } else {
        Some(8)
    }
}

// Ends a run: the bytes of the end record, or the number of a refusal.
pub fn end(s: &mut [u8], room: &mut [u8]) -> Result<u64, u8>
    ensures value { result ≡ written_by (end_number s.old (length room.old)) 7 }
    ensures s_after { s.new ≡ end_leaves s.old (length room.old) }
    ensures room_after { room.new ≡ end_writes s.old room.old }
{
    let own = own_number(s);
    if own != 0 {
        return Err(own);
    }
    let m = kept::marked(s);
    let steps = m.state.steps;
    if let Some(number) = end_fault(m) {
        kept::stop(s, number, m.place - (m.tail as u64), steps);
        return Err(number);
    }
    if room.len() < END_BYTES {
        return Err(11);
    }
    records::put_end(room, 0, steps);
    kept::stop(s, 9, m.place, steps);
    Ok(END_BYTES as u64)
}

// Makes lent bytes the state before any byte of a file.
pub fn start(s: &mut [u8]) -> u8
    ensures value { result ≡ start_number s.old }
    ensures s_after { s.new ≡ start_leaves s.old }
{
    if s.len() != SIZE {
        return 10;
    }
    let none = [0u8; 1];
    let m = Mark {
        place: 0,
        state: fields::first(),
        site: 0,
        tail: 0,
        due: Due {
            sun: Sun {
                irradiance: 0,
                temperature: 0,
            },
            voltage: None,
        },
    };
    kept::zero(s, SITE, SIZE);
    intake::clear_stands(s);
    kept::put_top(s, m, &none, 0, 0);
    0
}

// The place of a state: the bytes taken, or where the run was refused; 0 for bytes that are none.
pub fn place(s: &[u8]) -> u64
    ensures { result ≡ place_told s.now }
{
    if kept::well(s) {
        return octets::u64_at(s, 1);
    }
    0
}

// The steps of a state, 0 for bytes that are none.
pub fn steps(s: &[u8]) -> u32
    ensures { result ≡ steps_told s.now }
{
    if kept::well(s) {
        return octets::u32_at(s, 9);
    }
    0
}
