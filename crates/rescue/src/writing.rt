ghost use Rattle.std.specs.Prelude.{◌≡◌, true, cond, map, ◌+◌, ◌-◌, ◌*◌, ◌≤◌, length};
ghost use Rattle.octets.specs.BigEndian.{laid};
ghost use Rattle.rescue.specs.Saved.{saved_of};
ghost use Rattle.rescue.specs.Answers.{change, change_bytes, end_field, made_missing, list_bytes};
ghost use Rattle.rescue.specs.Posts.{part_bytes};

use super::{CHANGE_BYTES, Group, READING_BYTES, groups, walking};
use fields::AT_END;

// Lays a change in the list.
pub fn put_change(list: &mut [u8], at: usize, place: u64, kind: u8, dropped: u64)
    requires { at + 17 ≤ length list.old }
    ensures { list.new ≡ laid list.old at (change_bytes (change place kind dropped)) }
{
    octets::put_u64(list, at, place);
    octets::put_u8(list, at + 8, kind);
    octets::put_u64(list, at + 9, dropped);
}

// Lays an end field with a number of steps.
pub fn put_end(out: &mut [u8], at: usize, steps: u32)
    requires { at + 7 ≤ length out.old }
    ensures { out.new ≡ laid out.old at (end_field steps) }
{
    octets::put_u8(out, at, 127);
    octets::put_u16(out, at + 1, 4);
    octets::put_u32(out, at + 3, steps);
}

// Lays what is kept of a group: its bytes as they lie, with a missing reading for one that is lost.
fn put_part(out: &mut [u8], to: usize, file: &[u8], at: usize, g: Group)
    requires size_in_bounds { at + g.size ≤ length file.now }
    requires le_size { g.lost ≡ true → 27 ≤ g.size }
    requires g_in_bounds { to + length (part_bytes file.now at g) ≤ length out.old }
    ensures { out.new ≡ laid out.old to (part_bytes file.now at g) }
{
    if !g.lost {
        kept::copy(out, to, file, at, at + g.size);
        return;
    }
    let n = g.size - READING_BYTES;
    kept::copy(out, to, file, at, at + n);
    octets::put_u8(out, to + n, 5);
    octets::put_u16(out, to + n + 1, 0);
}

// Lays all that is kept of a file, and a change for each reading that is made missing.
pub fn put_kept(file: &[u8], out: &mut [u8], list: &mut [u8])
    requires file_in_bounds { length (saved_of file.now).kept ≤ length out.old }
    requires file_in_bounds_2 { 17 * length (saved_of file.now).missing ≤ length list.old }
    ensures out_after { out.new ≡ laid out.old 0 (saved_of file.now).kept }
    ensures list_after { list.new ≡ laid list.old 0 (list_bytes (map made_missing (saved_of file.now).missing)) }
{
    let mut st = fields::first();
    let mut at = 0;
    let mut to = 0;
    let mut line = 0;
    while at < file.len() {
        if st.stage == AT_END {
            return;
        }
        let Ok(g) = groups::next(st, file, at) else {
            return;
        };
        put_part(out, to, file, at, g);
        if g.lost {
            put_change(list, line, (at + g.size - READING_BYTES) as u64, 1, 24);
            line += CHANGE_BYTES;
        }
        st = g.state;
        at += g.size;
        to += walking::kept_of(g);
    }
}
