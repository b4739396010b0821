ghost use Rattle.std.specs.Prelude.{◌≡◌, cond};
ghost use Rattle.partner.specs.Shown.{told_by, ShownPart};

use super::{Verdict, judging};
use whole::Refusal;

// The one lent file or the other.
fn chosen<'a>(run: &'a [u8], res: &'a [u8], first: bool) -> &'a [u8]
    ensures { result ≡ cond first run.entry res.entry }
{
    if first { run } else { res }
}

// The verdict of an answer; of a refusal that of nothing shown.
fn told(a: Result<Verdict, Refusal>) -> Verdict
    ensures { result ≡ told_by a }
{
    match a {
        Ok(v) => v,
        Err(_) => Verdict {
            number: 0,
            start: 0,
            len: 0,
        },
    }
}

// What the verdict shows, as it lies in the partner's result or in the run file.
pub fn shown<'a>(run: &'a [u8], res: &'a [u8]) -> &'a [u8]
    ensures { ShownPart run.entry res.entry result }
{
    let v = told(judging::judge(run, res));
    let start = v.start as usize;
    let file = chosen(run, res, v.number == 2);
    &file[start..start + (v.len as usize)]
}
