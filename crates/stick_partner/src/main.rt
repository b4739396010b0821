// Judges a result that a partner made of a run file: stick_partner RUN RESULT. It prints the
// verdict and, of a wrong result, the bytes that show it, as they lie in one of the two files.

#![tactic(auto)]

mod files;
mod lines;

use lines::Name;
use partner::Verdict;
use screen::Stop;
use std::io;
use std::rt::Files;

// A verdict's line, and behind one of a wrong result the bytes that show it.
fn told(
    out: &impl Print,
    run_name: Name,
    result_name: Name,
    v: Verdict,
    shown: &[u8],
) -> io::Result<()> {
    match v.number {
        0 => lines::right(out, run_name, result_name)?,
        1 => lines::wrong(out, run_name, result_name, v.start)?,
        _ => lines::short(out, run_name, result_name, v.start)?,
    }
    screen::hex(out, shown)
}

// The verdict on what was read, all of it.
fn judged(
    out: &impl Print,
    err: &impl Print,
    run_name: Name,
    run: &[u8],
    result_name: Name,
    res: &[u8],
) -> io::Result<()> {
    match partner::judge(run, res) {
        Ok(v) => told(out, run_name, result_name, v, partner::shown(run, res)),
        Err(r) => {
            lines::refused(out, run_name, r)?;
            lines::no_verdict(err, result_name)
        }
    }
}

// Reads both files and judges the second.
fn call(
    rt: &(impl Files + Print + AllocGlobal),
    err: &impl Print,
    run_name: Name,
    result_name: Name,
) -> io::Result<()> {
    let mut run = [0u8; 65536];
    let mut result = [0u8; 65536];
    let a = files::read(rt, err, run_name, &mut run)?;
    let Stop::Ended = a.stop else {
        return lines::no_verdict(err, result_name);
    };
    let b = files::read(rt, err, result_name, &mut result)?;
    let Stop::Ended = b.stop else {
        return lines::no_verdict(err, result_name);
    };
    judged(
        rt,
        err,
        run_name,
        &run[..a.count],
        result_name,
        &result[..b.count],
    )
}

fn main(rt: HostRuntime) -> io::Result<()> {
    let err = rt.stderr();
    if !screen::is_given(&rt, 2) || screen::is_given(&rt, 3) {
        return lines::usage(&err);
    }
    let mut run_name = [0u8; 4096];
    let Ok(n) = screen::word(&rt, 1, &mut run_name) else {
        return lines::too_long_a_name(&err, b"RUN");
    };
    let mut result_name = [0u8; 4096];
    let Ok(m) = screen::word(&rt, 2, &mut result_name) else {
        return lines::too_long_a_name(&err, b"RESULT");
    };
    call(&rt, &err, Name(&run_name[..n]), Name(&result_name[..m]))
}
