ghost use Rattle.std.specs.Prelude.{◌≡◌, false, true, cond, [], ◌++◌, ◌+◌, ◌≤◌, length, take};
ghost use Rattle.octets.specs.BigEndian.{laid};
ghost use Rattle.kept.specs.Kept.{begun};
ghost use Rattle.kept.specs.Layout.{state_size, site_place, state_in, mark_in, kept_in, bytes_for};
ghost use Rattle.taking.specs.Chunk.{closing, head_in, absorbed, results_by};
ghost use Rattle.taking.specs.Posts.{Leads};
ghost use Rattle.intake.specs.Posts.{Open, Grown};

use super::{CLOSING, heads, running};
use fields::State;
use kept::{Mark, SITE};

// Closes the site part with an end field of no steps at a place.
fn close(s: &mut [u8], at: usize)
    requires { at + 7 ≤ length s.old }
    ensures { s.new ≡ laid s.old at closing }
{
    octets::put_u8(s, at, 127);
    octets::put_u16(s, at + 1, 4);
    octets::put_u32(s, at + 3, 0);
}

// The site part with the fields before the steps behind it, closed once the steps begin; its bytes
// then.
fn grow(s: &mut [u8], m: Mark, bytes: &[u8], head: usize, next: State) -> usize
    requires fact { Open s.old }
    requires m_value { m ≡ mark_in s.old }
    requires head_value { head ≡ head_in bytes.now }
    requires leads { Leads (state_in s.old) bytes.now next }
    ensures { Grown s.old s.new bytes.now next result }
{
    let st = m.state;
    if kept::begun_at(st.stage) {
        return m.site;
    }
    let end = m.site + head;
    kept::copy(s, SITE + m.site, bytes, 0, head);
    if kept::begun_at(next.stage) {
        close(s, SITE + end);
        return end + CLOSING;
    }
    end
}

// Takes in whole fields that lead to a state between fields: what is kept afterwards, without a tail,
// and the records of their steps from a place of the room on; the place behind them.
pub fn absorb(s: &mut [u8], bytes: &[u8], next: State, room: &mut [u8], out: usize) -> usize
    requires fact { Open s.old }
    requires leads { Leads (state_in s.old) bytes.now next }
    requires next_in_bounds { out + length (results_by (kept_in s.old) bytes.now next) ≤ length room.old }
    ensures value { result ≡ out + length (results_by (kept_in s.old) bytes.now next) }
    ensures s_after { s.new ≡ bytes_for (absorbed (kept_in s.old) bytes.now next) }
    ensures room_after { room.new ≡ laid room.old out (results_by (kept_in s.old) bytes.now next) }
{
    let m = kept::marked(s);
    let head = heads::head_end(bytes);
    let site = grow(s, m, bytes, head, next);
    if kept::begun_at(next.stage) {
        return running::run(s, m, site, bytes, head, next, room, out);
    }
    running::wait(s, m, site, bytes, next);
    out
}
