ghost use Rattle.std.specs.Prelude.{◌≡◌, ◌++◌, ◌+◌, ◌-◌, ◌≤◌, length, take};
ghost use Rattle.parts.specs.Header.{past};
ghost use Rattle.stick.specs.Check.{reach_of};
ghost use Rattle.chunks.specs.Sizes.{largest_field};
ghost use Rattle.chunks.specs.Holds.{moved};
ghost use Rattle.kept.specs.Layout.{tail_most, tail_bytes, tail_part, mark_in, kept_in};
ghost use Rattle.kept.specs.Posts.{Sized};
ghost use Rattle.taking.specs.Chunk.{gone_by};
ghost use Rattle.intake.specs.Posts.{Open};

use super::LARGEST;
use fields::{HEADER, State};
use kept::{Mark, TAIL};
use stick::Reached;

// Lays the tail and the chunk behind it, as far as the largest field goes; how many bytes that are.
pub fn join(joint: &mut [u8], s: &[u8], chunk: &[u8]) -> usize
    requires joint_len { length joint.old ≡ largest_field }
    requires sized { Sized s.now }
    ensures value { result ≡ length (take largest_field (tail_part s.now ++ chunk.now)) }
    ensures joint_after { take result joint.new ≡ take largest_field (tail_part s.now ++ chunk.now) }
{
    let t = octets::u8_at(s, 16) as usize;
    let n = chunk.len().min(LARGEST - t);
    kept::copy(joint, 0, s, TAIL, TAIL + t);
    kept::copy(joint, t, chunk, 0, n);
    t + n
}

// How far the fields go behind a first one, whose last bytes are in the chunk.
fn beyond(st: State, joint: &[u8], chunk: &[u8], tail: usize) -> Reached
    requires in_bounds { 3 ≤ length joint.now }
    requires tail_bound { tail ≤ past joint.now 0 }
    requires joint_bound { past joint.now 0 ≤ tail + length chunk.now }
    requires tail_le_tail_most { tail ≤ tail_most }
    ensures { result ≡ moved tail (reach_of (length chunk.now) st chunk.now (past joint.now 0 - tail)) }
{
    let size = HEADER + (octets::u16_at(joint, 1) as usize);
    let r = stick::reach(st, chunk, size - tail);
    let state = r.state;
    Reached {
        number: r.number,
        at: tail + r.at,
        state,
    }
}

// How far the fields go behind a tail: the first is put together, the others lie in the chunk.
fn gone_on(s: &[u8], m: Mark, chunk: &[u8]) -> Reached
    requires fact { Open s.now }
    requires m_value { m ≡ mark_in s.now }
    requires le_tail { 1 ≤ m.tail }
    ensures { result ≡ gone_by (kept_in s.now) chunk.now }
{
    let st = m.state;
    let t = m.tail;
    let mut joint = [0u8; LARGEST];
    let n = join(&mut joint, s, chunk);
    match stick::field(st, &joint[0..n], 0) {
        Err(number) => Reached {
            number,
            at: 0,
            state: st,
        },
        Ok(next) => beyond(next, &joint[0..n], chunk, t),
    }
}

// How far the fields go, from the tail's first byte on.
pub fn gone(s: &[u8], m: Mark, chunk: &[u8]) -> Reached
    requires fact { Open s.now }
    requires m_value { m ≡ mark_in s.now }
    ensures { result ≡ gone_by (kept_in s.now) chunk.now }
{
    if m.tail == 0 {
        let st = m.state;
        return stick::reach(st, chunk, 0);
    }
    gone_on(s, m, chunk)
}
