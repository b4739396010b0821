ghost use Rattle.std.specs.Prelude.{◌≡◌, [], ◌+◌, ◌≤◌, length, drop};
ghost use Rattle.kept.specs.Layout.{tail_most, kept_in, bytes_for};
ghost use Rattle.kept.specs.Posts.{Sized};
ghost use Rattle.taking.specs.Chunk.{with_tail};

use kept::Mark;

// Keeps bytes from a place on as the tail.
pub fn keep_tail(s: &mut [u8], bytes: &[u8], from: usize)
    requires sized { Sized s.old }
    requires s_value { (kept_in s.old).tail ≡ [] }
    requires s_value_2 { s.old ≡ bytes_for (kept_in s.old) }
    requires from_in_bounds { from ≤ length bytes.now }
    requires bytes_len_bound { length bytes.now ≤ from + tail_most }
    requires bytes_bound { (kept_in s.old).place + length bytes.now ≤ 18446744073709551615 }
    ensures { s.new ≡ bytes_for (with_tail (kept_in s.old) (drop from bytes.now)) }
{
    let m = kept::marked(s);
    let n = bytes.len() - from;
    let k = Mark {
        place: m.place + (n as u64),
        tail: n,
        ..m
    };
    kept::put_top(s, k, bytes, from, bytes.len());
}
