// The rescue of a damaged file, and a partner's result.
ghost use Rattle.std.specs.Prelude.{◌≡◌, length};
ghost use Rattle.whole.specs.Call.{number_of, held_after};
ghost use Rattle.rescue.specs.Answers.{rescue_of, output_room, changes_told, rescue_answer, rescue_writes, rescue_lists};
ghost use Rattle.partner.specs.declared.Verdict.{Verdict};
ghost use Rattle.yesbrulka.specs.Calls.{partner_told};

// The bytes of a rescue's output, 0 for a file that it refuses.
#[unsafe(no_mangle)]
pub extern "C" fn yb_rescue_room(file: &[u8]) -> u64
    ensures { result ≡ output_room file.now }
{
    match rescue::survey(file) {
        Ok(v) => v.output as u64,
        Err(_) => 0,
    }
}

// The changes that a rescue makes, 0 for a file that it refuses.
#[unsafe(no_mangle)]
pub extern "C" fn yb_rescue_changes(file: &[u8]) -> u64
    ensures { result ≡ changes_told file.now }
{
    match rescue::survey(file) {
        Ok(v) => v.changes as u64,
        Err(_) => 0,
    }
}

// The steps of a rescue's output, 0 for a file that it refuses.
#[unsafe(no_mangle)]
pub extern "C" fn yb_rescue_steps(file: &[u8]) -> u32
    ensures { result ≡ (rescue_of file.now).steps }
{
    match rescue::survey(file) {
        Ok(v) => v.steps,
        Err(r) => r.steps,
    }
}

// The rescue: 0, the output at the start of its room and the changes at the start of the list; or the
// check's number of a field due before the steps, 12 or 11.
#[unsafe(no_mangle)]
pub extern "C" fn yb_rescue(file: &[u8], out: &mut [u8], list: &mut [u8]) -> u32
    ensures value { result ≡ (rescue_answer file.now (length out.old) (length list.old)).number }
    ensures out_after { out.new ≡ rescue_writes file.now out.old (length list.old) }
    ensures list_after { list.new ≡ rescue_lists file.now (length out.old) list.old }
{
    match rescue::rescue(file, out, list) {
        Ok(_) => 0,
        Err(r) => r.number as u32,
    }
}

// A partner's result beside the run file: 0 and the verdict, with the place of what is shown and its
// bytes; or the check's number of the run file.
#[unsafe(no_mangle)]
pub extern "C" fn yb_partner(
    run: &[u8],
    res: &[u8],
    verdict: &mut u8,
    start: &mut u64,
    len: &mut u64,
) -> u32
    ensures value { result ≡ number_of (partner_told run.now res.now) }
    ensures verdict_after { verdict.new ≡ held_after (partner_told run.now res.now) (λ (v : Verdict). v.number) verdict.old }
    ensures start_after { start.new ≡ held_after (partner_told run.now res.now) (λ (v : Verdict). v.start) start.old }
    ensures len_after { len.new ≡ held_after (partner_told run.now res.now) (λ (v : Verdict). v.len) len.old }
{
    match partner::judge(run, res) {
        Ok(v) => {
            *verdict = v.number;
            *start = v.start;
            *len = v.len;
            0
        }
        Err(r) => r.number as u32,
    }
}
