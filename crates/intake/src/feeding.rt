ghost use Rattle.std.specs.Prelude.{◌≡◌, ◌+◌, ◌-◌, ◌≤◌, length, drop};
ghost use Rattle.std.proofs.Math.Seq.{slice};
ghost use Rattle.octets.specs.BigEndian.{laid};
ghost use Rattle.parts.specs.Header.{past};
ghost use Rattle.kept.specs.Layout.{tail_most, state_in, kept_in, bytes_for};
ghost use Rattle.taking.specs.Chunk.{with_tail, absorbed, results_by, fed_by, results_for};
ghost use Rattle.taking.specs.Posts.{Leads};
ghost use Rattle.intake.specs.Posts.{first_of, others_of, both_kept, both_results, Open, Gone};

use super::{LARGEST, absorbing, joints, tails};
use fields::{HEADER, State};
use kept::Mark;
use stick::Reached;

// Takes in the whole fields of bytes from one place up to another, and keeps those behind them as the
// tail.
fn take_rest(
    s: &mut [u8],
    bytes: &[u8],
    from: usize,
    to: usize,
    next: State,
    room: &mut [u8],
    out: usize,
)
    requires fact { Open s.old }
    requires from_le_to { from ≤ to }
    requires to_in_bounds { to ≤ length bytes.now }
    requires bytes_len_bound { length bytes.now ≤ to + tail_most }
    requires leads { Leads (state_in s.old) (slice from to bytes.now) next }
    requires next_in_bounds { out + length (results_by (kept_in s.old) (slice from to bytes.now) next) ≤ length room.old }
    ensures s_after { s.new ≡ bytes_for (with_tail (absorbed (kept_in s.old) (slice from to bytes.now) next) (drop to bytes.now)) }
    ensures room_after { room.new ≡ laid room.old out (results_by (kept_in s.old) (slice from to bytes.now) next) }
{
    absorbing::absorb(s, &bytes[from..to], next, room, out);
    tails::keep_tail(s, bytes, to);
}

// Takes in a first field, whose last bytes are in the chunk, and the whole fields of the chunk behind
// it.
fn take_both(
    s: &mut [u8],
    joint: &[u8],
    mid: State,
    chunk: &[u8],
    tail: usize,
    at: usize,
    next: State,
    room: &mut [u8],
)
    requires fact { Open s.old }
    requires in_bounds { 3 ≤ length joint.now }
    requires joint_in_bounds { past joint.now 0 ≤ length joint.now }
    requires tail_bound { tail ≤ past joint.now 0 }
    requires joint_bound { past joint.now 0 ≤ at }
    requires at_bound { at ≤ tail + length chunk.now }
    requires chunk_bound { tail + length chunk.now ≤ at + tail_most }
    requires leads { Leads (state_in s.old) (first_of joint.now) mid }
    requires leads_2 { Leads mid (others_of joint.now tail at chunk.now) next }
    requires next_in_bounds { length (both_results (kept_in s.old) (first_of joint.now) mid (others_of joint.now tail at chunk.now) next) ≤ length room.old }
    ensures s_after { s.new ≡ bytes_for (both_kept (kept_in s.old) joint.now mid tail at chunk.now next) }
    ensures room_after { room.new ≡ laid room.old 0 (both_results (kept_in s.old) (first_of joint.now) mid (others_of joint.now tail at chunk.now) next) }
{
    let size = HEADER + (octets::u16_at(joint, 1) as usize);
    let out = absorbing::absorb(s, &joint[0..size], mid, room, 0);
    take_rest(s, chunk, size - tail, at - tail, next, room, out);
}

// Takes in a chunk without a fault behind a tail: the first field is put together, the others lie in
// the chunk.
fn take_joined(s: &mut [u8], m: Mark, chunk: &[u8], r: Reached, room: &mut [u8])
    requires gone { Gone s.old m chunk.now r }
    requires le_tail { 1 ≤ m.tail }
    requires chunk_in_bounds { length (results_for (kept_in s.old) chunk.now) ≤ length room.old }
    ensures s_after { s.new ≡ bytes_for (fed_by (kept_in s.old) chunk.now) }
    ensures room_after { room.new ≡ laid room.old 0 (results_for (kept_in s.old) chunk.now) }
{
    let st = m.state;
    let next = r.state;
    let t = m.tail;
    let at = r.at;
    let mut joint = [0u8; LARGEST];
    let n = joints::join(&mut joint, s, chunk);
    match stick::field(st, &joint[0..n], 0) {
        Ok(mid) => take_both(s, &joint[0..n], mid, chunk, t, at, next, room),
        Err(_) => take_rest(s, &joint[0..n], 0, 0, st, room, 0),
    }
}

// Takes in a chunk without a fault.
pub fn take_in(s: &mut [u8], m: Mark, chunk: &[u8], r: Reached, room: &mut [u8])
    requires gone { Gone s.old m chunk.now r }
    requires chunk_in_bounds { length (results_for (kept_in s.old) chunk.now) ≤ length room.old }
    ensures s_after { s.new ≡ bytes_for (fed_by (kept_in s.old) chunk.now) }
    ensures room_after { room.new ≡ laid room.old 0 (results_for (kept_in s.old) chunk.now) }
{
    if m.tail != 0 {
        take_joined(s, m, chunk, r, room);
        return;
    }
    let next = r.state;
    take_rest(s, chunk, 0, r.at, next, room, 0);
}
