ghost use Rattle.std.specs.Prelude.{◌≡◌, ◌∷◌, [], ◌+◌, ◌≤◌, length, drop};
ghost use Rattle.records.specs.Records.{end_of, end_bytes};
ghost use Rattle.partner.specs.Verdict.{asked_by, verdict_from};
ghost use Rattle.partner.specs.Posts.{field_start, field_size, wrong_at};

use super::{Part, Verdict, alike};
use records::{END_BYTES, RECORD_BYTES, ROOF_RECORD_BYTES};

// The field of a step's records, with so many units, in which a byte lies.
pub fn field_in(units: usize, d: usize) -> Part
    requires { units ≤ 64 }
    ensures start_value { result.start ≡ field_start units d }
    ensures size_value { result.size ≡ field_size units d }
{
    let behind = RECORD_BYTES * units;
    if d < behind {
        return Part {
            start: d / RECORD_BYTES * RECORD_BYTES,
            size: RECORD_BYTES,
        };
    }
    Part {
        start: behind + (d - behind) / ROOF_RECORD_BYTES * ROOF_RECORD_BYTES,
        size: ROOF_RECORD_BYTES,
    }
}

// What is shown for a field of ours that does not stand where it should in a result of so many bytes:
// those that stand there, or the run file's field at a place, which asks for it.
pub fn wrong(run: &[u8], place: usize, len: usize, start: usize, size: usize) -> Verdict
    requires place_in_bounds { place + 3 ≤ length run.now }
    requires start_le_len { start ≤ len }
    ensures { result ≡ wrong_at run.now place len start size }
{
    let there = size.min(len - start) as u64;
    if there == 0 {
        return Verdict {
            number: 2,
            start: place as u64,
            len: 3 + (octets::u16_at(run, place + 1) as u64),
        };
    }
    Verdict {
        number: 1,
        start: start as u64,
        len: there,
    }
}

// The end record, and nothing behind it.
pub fn end_judged(run: &[u8], place: usize, res: &[u8], out: usize, steps: u32) -> Verdict
    requires place_in_bounds { place + 3 ≤ length run.now }
    requires out_in_bounds { out ≤ length res.now }
    ensures { result ≡ verdict_from run.now (asked_by place end_bytes ∷ []) (end_of steps) (drop out res.now) out }
{
    let mut room = [0u8; 7];
    records::put_end(&mut room[0..END_BYTES], 0, steps);
    if alike::alike(&room[0..END_BYTES], END_BYTES, res, out) < END_BYTES {
        return wrong(run, place, res.len(), out, END_BYTES);
    }
    let end = out + END_BYTES;
    if res.len() == end {
        return Verdict {
            number: 0,
            start: 0,
            len: 0,
        };
    }
    Verdict {
        number: 1,
        start: end as u64,
        len: (res.len() - end) as u64,
    }
}
