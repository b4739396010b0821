ghost use Rattle.std.specs.Prelude.{◌≡◌, length};
ghost use Rattle.feed.specs.Answers.{written_by, room_for, feed_number, feed_leaves, feed_writes};

use super::calls;

// Feeds a chunk: the bytes written, or the number of a refusal.
pub fn feed(s: &mut [u8], chunk: &[u8], room: &mut [u8]) -> Result<u64, u8>
    ensures value { result ≡ written_by (feed_number s.old chunk.now (length room.old)) (room_for s.old chunk.now) }
    ensures s_after { s.new ≡ feed_leaves s.old chunk.now (length room.old) }
    ensures room_after { room.new ≡ feed_writes s.old chunk.now room.old }
{
    let number = calls::own_number(s);
    if number != 0 {
        return Err(number);
    }
    let m = kept::marked(s);
    let r = intake::gone(s, m, chunk);
    let st = m.state;
    let next = r.state;
    if 1 < r.number {
        let place = m.place - (m.tail as u64) + (r.at as u64);
        kept::stop(s, r.number, place, next.steps);
        return Err(r.number);
    }
    let size = calls::needed(st, next);
    if (room.len() as u64) < size {
        return Err(11);
    }
    intake::take_in(s, m, chunk, r, room);
    Ok(size)
}
