// The check of a file, its parts for the support screen, and its run.
ghost use Rattle.std.specs.Prelude.{◌≡◌, length};
ghost use Rattle.stick.specs.Check.{check_of};
ghost use Rattle.parts.specs.Parts.{part_start, part_size};
ghost use Rattle.season.specs.Answers.{room_of, run_answer, run_leaves};
ghost use Rattle.whole.specs.Call.{number_of};
ghost use Rattle.peaks.specs.Answers.{peaks_leaves};
ghost use Rattle.yesbrulka.specs.Calls.{peaks_told};

// The check of a file's bytes, in one pass: the number of its refusal, 0 for a complete file; the
// place of the refused field, or where reading stopped; and the steps accepted.
#[unsafe(no_mangle)]
pub extern "C" fn yb_checked(file: &[u8], place: &mut u64, steps: &mut u32) -> u32
    ensures value { result ≡ (check_of file.now).number }
    ensures place_after { place.new ≡ (check_of file.now).place }
    ensures steps_after { steps.new ≡ (check_of file.now).steps }
{
    match stick::check(file) {
        Ok(a) => {
            *place = a.place;
            *steps = a.steps;
            0
        }
        Err(r) => {
            *place = r.place;
            *steps = r.steps;
            r.number as u32
        }
    }
}

// The check of a file's bytes: the number of its refusal, 0 for a complete file.
#[unsafe(no_mangle)]
pub extern "C" fn yb_check(file: &[u8]) -> u32
    ensures { result ≡ (check_of file.now).number }
{
    match stick::check(file) {
        Ok(_) => 0,
        Err(r) => r.number as u32,
    }
}

// The check: the place of the refused field, or where reading stopped.
#[unsafe(no_mangle)]
pub extern "C" fn yb_check_place(file: &[u8]) -> u64
    ensures { result ≡ (check_of file.now).place }
{
    match stick::check(file) {
        Ok(a) => a.place,
        Err(r) => r.place,
    }
}

// The check: the steps accepted.
#[unsafe(no_mangle)]
pub extern "C" fn yb_check_steps(file: &[u8]) -> u32
    ensures { result ≡ (check_of file.now).steps }
{
    match stick::check(file) {
        Ok(a) => a.steps,
        Err(r) => r.steps,
    }
}

// The support screen: where the value bytes of the field at a place begin.
#[unsafe(no_mangle)]
pub extern "C" fn yb_value_start(file: &[u8], place: u64) -> u64
    ensures { result ≡ part_start file.now place }
{
    parts::place_past(file, place) - (parts::value_at(file, place).len() as u64)
}

// The support screen: how many of them are there.
#[unsafe(no_mangle)]
pub extern "C" fn yb_value_len(file: &[u8], place: u64) -> u64
    ensures { result ≡ part_size file.now place }
{
    parts::value_at(file, place).len() as u64
}

// The run: the bytes that the result of a file needs, 0 for a file that the check refuses.
#[unsafe(no_mangle)]
pub extern "C" fn yb_run_room(file: &[u8]) -> u64
    ensures { result ≡ room_of file.now }
{
    season::room(file)
}

// The run of a file's bytes: 0 and the result at the room's start, with the bytes past it as they
// were; or the check's refusal or 11, and the room as it was.
#[unsafe(no_mangle)]
pub extern "C" fn yb_run(file: &[u8], room: &mut [u8]) -> u32
    ensures value { result ≡ (run_answer file.now (length room.old)).number }
    ensures room_after { room.new ≡ run_leaves file.now room.old }
{
    match season::run(file, room) {
        Ok(_) => 0,
        Err(refused) => refused.number as u32,
    }
}

// The figures of a file's season with a target in place of its own: 0, and the list holds them; or the
// check's number, 10 or 5.
#[unsafe(no_mangle)]
pub extern "C" fn yb_peaks(file: &[u8], target: i32, figures: &mut [i64]) -> u32
    ensures value { result ≡ number_of (peaks_told file.now target (length figures.old)) }
    ensures figures_after { figures.new ≡ peaks_leaves file.now target figures.old }
{
    match peaks::peaks(file, target, figures) {
        Ok(_told) => 0,
        Err(r) => r.number as u32,
    }
}
