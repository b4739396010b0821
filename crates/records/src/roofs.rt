ghost use Rattle.std.specs.Prelude.{◌≡◌, ◌+◌, ◌≤◌, length};
ghost use Rattle.octets.specs.BigEndian.{laid};
ghost use Rattle.records.specs.Records.{turned_part, lit_part, roof_record_of, roof_record_bytes};

use solar::Given;

// Lays the first part of an inverter's record: tag, length, step, inverter and whether it is on.
fn put_turned(room: &mut [u8], at: usize, step: u32, inverter: u8, on: bool)
    requires { at + 9 ≤ length room.old }
    ensures { room.new ≡ laid room.old at (turned_part step inverter on) }
{
    octets::put_u8(room, at, 0x12);
    octets::put_u16(room, at + 1, 26);
    octets::put_u32(room, at + 3, step);
    octets::put_u8(room, at + 7, inverter);
    octets::put_u8(room, at + 8, on as u8);
}

// Lays the rest of it: what the inverter gives.
fn put_lit(room: &mut [u8], at: usize, g: Given)
    requires { at + 20 ≤ length room.old }
    ensures { room.new ≡ laid room.old at (lit_part g) }
{
    octets::put_f64(room, at, reading::kw(g.watts));
    octets::put_i32(room, at + 8, g.vars);
    octets::put_u64(room, at + 12, g.dc);
}

// Lays an inverter's record in a step at a place of the room.
pub fn put_roof(room: &mut [u8], at: usize, step: u32, inverter: u8, g: Given)
    requires { at + roof_record_bytes ≤ length room.old }
    ensures { room.new ≡ laid room.old at (roof_record_of step inverter g) }
{
    put_turned(room, at, step, inverter, g.on);
    put_lit(room, at + 9, g);
}
