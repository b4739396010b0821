ghost use Rattle.std.specs.Prelude.{◌≡◌, ◌+◌, ◌≤◌, length};
ghost use Rattle.octets.specs.BigEndian.{laid};
ghost use Rattle.records.specs.Records.{asked_part, given_part, record_of, end_of, record_bytes, end_bytes};

use storage::Outcome;

// Lays the first part of a unit's record: tag, length, step, unit and request. All but the request
// are eight bytes, laid as one number: 0x1100250000000000 with the step and the unit in its low ones.
fn put_asked(room: &mut [u8], at: usize, step: u32, unit: u8, request: i32)
    requires { at + 12 ≤ length room.old }
    ensures { room.new ≡ laid room.old at (asked_part step unit request) }
{
    octets::put_u64(
        room,
        at,
        1225019780575002624 + (step as u64) * 256 + (unit as u64),
    );
    octets::put_i32(room, at + 8, request);
}

// Lays the rest of it: what the unit gives.
fn put_given(room: &mut [u8], at: usize, o: Outcome)
    requires { at + 28 ≤ length room.old }
    ensures { room.new ≡ laid room.old at (given_part o) }
{
    octets::put_f64(room, at, reading::kw(o.watts));
    octets::put_i32(room, at + 8, o.vars);
    octets::put_u64(room, at + 12, o.stored);
    octets::put_u64(room, at + 20, o.loss);
}

// Lays a unit's record in a step at a place of the room.
pub fn put_record(room: &mut [u8], at: usize, step: u32, unit: u8, request: i32, o: Outcome)
    requires { at + record_bytes ≤ length room.old }
    ensures { room.new ≡ laid room.old at (record_of step unit request o) }
{
    put_asked(room, at, step, unit, request);
    put_given(room, at + 12, o);
}

// Lays the end record at a place of the room.
pub fn put_end(room: &mut [u8], at: usize, steps: u32)
    requires { at + end_bytes ≤ length room.old }
    ensures { room.new ≡ laid room.old at (end_of steps) }
{
    octets::put_u8(room, at, 0x1F);
    octets::put_u16(room, at + 1, 4);
    octets::put_u32(room, at + 3, steps);
}
