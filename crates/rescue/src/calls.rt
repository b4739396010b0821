ghost use Rattle.std.specs.Prelude.{◌≡◌, cond, ◌+◌, ◌*◌, ◌≤◌, leb, eqb, length};
ghost use Rattle.octets.specs.BigEndian.{laid};
ghost use Rattle.parts.specs.Header.{tag_at};
ghost use Rattle.stick.specs.Check.{checked_by};
ghost use Rattle.rescue.specs.Saved.{due, saved_of};
ghost use Rattle.rescue.specs.Answers.{list_bytes, rescue_answer, rescue_writes, rescue_lists};
ghost use Rattle.rescue.specs.Posts.{end_bytes_of, last_of, Walked, Surveyed};

use super::{CHANGE_BYTES, END_BYTES, Extent, Walk, walking, writing};
use fields::{
    AT_CONNECTIONS, AT_END, AT_INVERTERS, AT_LED, AT_READING, AT_STEPS, AT_VOLTAGE, State,
};
use stick::Checked;
use whole::Refusal;

// The most bytes of a run file.
const MOST_BYTES: usize = 2097152;

// A field due before the steps stands here.
fn is_due(st: State, tag: u8) -> bool
    ensures { result ≡ due st tag }
{
    let stage = st.stage;
    let opens = (stage == AT_INVERTERS) | ((stage == AT_CONNECTIONS) & !st.current);
    let begins = (stage == AT_STEPS) | opens | (stage == AT_LED);
    let closes = begins | (stage == AT_READING) | (stage == AT_VOLTAGE);
    let before = (tag == 6) | (tag == 7) | (tag == 10) | (tag == 11);
    !((stage == AT_END) | closes) | ((opens | (stage == AT_LED)) & before)
}

// The tag at a place, 0 past the end.
fn tag_at(file: &[u8], at: usize) -> u8
    ensures { result ≡ tag_at file.now at }
{
    if at < file.len() {
        return octets::u8_at(file, at);
    }
    0
}

// What becomes of the bytes where the walk ended: a change, or none where the end field is the last
// of a file of so many bytes.
fn last_change(w: Walk, len: usize) -> usize
    ensures { result ≡ cond (eqb w.state.stage 0) (cond (leb len w.at) 0 1) 1 }
{
    if w.state.stage == AT_END {
        return if len <= w.at { 0 } else { 1 };
    }
    1
}

// What a rescue comes to, by where the walk over a file of no more bytes than it may have ended.
fn by_walk(file: &[u8], w: Walk) -> Result<Extent, Refusal>
    requires file_len_bound { length file.now ≤ 2097152 }
    requires walked { Walked file.now w }
    ensures { Surveyed file.now result }
{
    let st = w.state;
    if is_due(st, tag_at(file, w.at)) {
        let number = if w.number == 0 { 8 } else { w.number };
        return Err(Refusal {
            number,
            place: w.at as u64,
            steps: 0,
        });
    }
    let output = w.kept + if st.stage == AT_END { 0 } else { END_BYTES };
    if MOST_BYTES < output {
        return Err(whole::refused(12));
    }
    Ok(Extent {
        place: file.len() as u64,
        steps: st.steps,
        output,
        changes: w.missing + last_change(w, file.len()),
    })
}

// What a rescue of any bytes comes to, or its refusal, rooms aside.
pub fn survey(file: &[u8]) -> Result<Extent, Refusal>
    ensures { Surveyed file.now result }
{
    if MOST_BYTES < file.len() {
        return Err(whole::refused(12));
    }
    by_walk(file, walking::walked(file))
}

// Lays an end field behind what is kept, if the walk did not end at one, and the last change.
fn finish(file: &[u8], out: &mut [u8], list: &mut [u8])
    requires file_in_bounds { length (saved_of file.now).kept + length (end_bytes_of file.now) ≤ length out.old }
    requires file_in_bounds_2 { 17 * (length (saved_of file.now).missing + length (last_of file.now)) ≤ length list.old }
    ensures out_after { out.new ≡ laid out.old (length (saved_of file.now).kept) (end_bytes_of file.now) }
    ensures list_after { list.new ≡ laid list.old (17 * length (saved_of file.now).missing) (list_bytes (last_of file.now)) }
{
    let w = walking::walked(file);
    let line = CHANGE_BYTES * w.missing;
    let dropped = (file.len() - w.at) as u64;
    if w.state.stage != AT_END {
        writing::put_end(out, w.kept, w.state.steps);
        writing::put_change(list, line, w.at as u64, 2, dropped);
        return;
    }
    if w.at < file.len() {
        writing::put_change(list, line, w.at as u64, 3, dropped);
    }
}

// The rescue of any bytes: the output at the start of its room and the changes at the start of the
// list, or a refusal with nothing written.
pub fn rescue(file: &[u8], out: &mut [u8], list: &mut [u8]) -> Result<Checked, Refusal>
    ensures value { result ≡ checked_by (rescue_answer file.now (length out.old) (length list.old)) }
    ensures out_after { out.new ≡ rescue_writes file.now out.old (length list.old) }
    ensures list_after { list.new ≡ rescue_lists file.now (length out.old) list.old }
{
    let v = survey(file)?;
    if (out.len() < v.output) | (list.len() < CHANGE_BYTES * v.changes) {
        return Err(Refusal {
            number: 11,
            place: v.place,
            steps: v.steps,
        });
    }
    writing::put_kept(file, out, list);
    finish(file, out, list);
    Ok(Checked {
        place: v.place,
        steps: v.steps,
    })
}
