ghost use Rattle.std.specs.Prelude.{◌≡◌, [], ◌++◌, ◌+◌, ◌*◌, ◌≤◌, length, drop};
ghost use Rattle.std.proofs.Math.Seq.{slice};
ghost use Rattle.octets.specs.BigEndian.{laid};
ghost use Rattle.rows.specs.Rows.{units_by};
ghost use Rattle.storage.specs.Posts.{Rested};
ghost use Rattle.solar.specs.Posts.{Shining};
ghost use Rattle.site.specs.Site.{count};
ghost use Rattle.stick.specs.Site.{site_of, roofs_of, plant_of, due_from};
ghost use Rattle.stick.specs.Check.{Accepted};
ghost use Rattle.stretch.specs.Stretch.{all_bytes, stands_after, records_from};
ghost use Rattle.stretch.specs.Posts.{StepsThere, Holding, stands_by};
ghost use Rattle.kept.specs.Layout.{state_size, held_place, site_place, site_most, top_of, stands_of};
ghost use Rattle.intake.specs.Posts.{first_by, steps_on, records_over, mark_after, left_by, Ahead};

use super::Course;
use fields::State;
use kept::{Mark, SITE};
use records::{RECORD_BYTES, ROOF_RECORD_BYTES};
use rows::Row;
use site::Due;
use stretch::{Track, Way};

// The steps of whole fields, over the site that lies in bytes; its units are in the rows.
fn over(
    site: &[u8],
    rows: &[Row],
    bytes: &[u8],
    c: Course,
    stored: &mut [u64],
    requests: &mut [i32],
    vars: &mut [i32],
    on: &mut [bool],
    room: &mut [u8],
) -> Way
    requires accepted { Accepted site.now }
    requires rows_value { units_by rows.now ≡ (site_of site.now).units }
    requires rested { Rested (site_of site.now).head.seconds rows.now }
    requires holding { Holding (site_of site.now) stored.old requests.old vars.old on.old }
    requires on_len { length on.old ≡ length (roofs_of site.now) }
    requires head_in_bounds { c.head ≤ length bytes.now }
    requires steps_there { StepsThere bytes.now c.head }
    requires shining { Shining c.mark.due.sun }
    requires bytes_bound { c.mark.state.steps + length (steps_on c bytes.now) ≤ 65535 }
    requires bytes_in_bounds { c.out + all_bytes (plant_of site.now) * length (steps_on c bytes.now) ≤ length room.old }
    ensures step_value { result.step ≡ c.mark.state.steps + length (steps_on c bytes.now) }
    ensures due_value { result.due ≡ due_from bytes.now c.mark.due c.head }
    ensures on_after { stands_by stored.new requests.new vars.new on.new ≡
        stands_after (plant_of site.now) (stands_by stored.old requests.old vars.old on.old) (steps_on c bytes.now) }
    ensures room_after { room.new ≡ laid room.old c.out
        (records_from (plant_of site.now) c.mark.state.steps
        (stands_by stored.old requests.old vars.old on.old) (steps_on c bytes.now)) }
{
    let frame = fleet::framed(stick::head(site), rows);
    let first = stick::roofs_place(site);
    let function = stick::function_place(site);
    let led = stick::is_guided(site, function);
    let due = c.mark.due;
    let way = Way {
        step: c.mark.state.steps,
        due,
    };
    let t = Track {
        frame,
        first,
        led,
        function,
        at: c.head,
        out: c.out,
        way,
    };
    stretch::along(site, rows, bytes, t, stored, requests, vars, on, room)
}

// What stands before whole fields: what is kept or, where the steps are only to begin, what stands at
// first.
fn stand(
    s: &[u8],
    m: Mark,
    n: usize,
    rows: &[Row],
    stored: &mut [u64],
    requests: &mut [i32],
    vars: &mut [i32],
    on: &mut [bool],
)
    requires s_len { length s.now ≡ state_size }
    requires n_le_site_most { n ≤ site_most }
    requires accepted { Accepted (slice site_place (site_place + n) s.now) }
    requires rows_value { units_by rows.now ≡ (site_of (slice site_place (site_place + n) s.now)).units }
    requires stored_len { length stored.old ≡ length rows.now }
    requires requests_len { length requests.old ≡ length rows.now }
    requires on_len { length on.old ≡ length (roofs_of (slice site_place (site_place + n) s.now)) }
    requires vars_len { length vars.old ≡ length rows.now + length on.old }
    ensures { stands_by stored.new requests.new vars.new on.new ≡ first_by m s.now (slice site_place (site_place + n) s.now) }
{
    if kept::begun_at(m.state.stage) {
        kept::load(s, stored, requests);
        kept::load_on(s, on);
        kept::load_vars(s, vars);
        return;
    }
    let first = stick::roofs_place(&s[SITE..SITE + n]);
    stretch::begin(&s[SITE..SITE + n], first, rows, stored, requests, vars, on);
}

// The mark after whole fields.
fn mark_after(m: Mark, next: State, site: usize, due: Due, bytes: usize) -> Mark
    requires tail_le_place { m.tail ≤ m.place }
    requires bytes_bound { m.place + bytes ≤ 18446744073709551615 }
    ensures { result ≡ mark_after m next site due bytes }
{
    Mark {
        place: m.place - (m.tail as u64) + (bytes as u64),
        state: next,
        site,
        tail: 0,
        due,
    }
}

// What is kept after whole fields: a mark without a tail, and what stands.
fn keep(
    s: &mut [u8],
    k: Mark,
    bytes: &[u8],
    stored: &[u64],
    requests: &[i32],
    vars: &[i32],
    on: &[bool],
)
    requires s_len { length s.old ≡ state_size }
    requires site_le_site_most { k.site ≤ site_most }
    requires tail_value { k.tail ≡ 0 }
    requires stored_len_bound { length stored.now ≤ 64 }
    requires requests_len { length requests.now ≡ length stored.now }
    requires vars_len_bound { length vars.now ≤ 128 }
    requires on_len_bound { length on.now ≤ 64 }
    ensures { s.new ≡ top_of k [] ++ stands_of stored.now requests.now vars.now on.now ++ drop site_place s.old }
{
    kept::put_stands(s, stored, requests, vars, on);
    kept::put_top(s, k, bytes, 0, 0);
}

// The run over whole fields, with rows and lists for the site's units and inverters.
fn run_with(
    s: &mut [u8],
    c: Course,
    bytes: &[u8],
    rows: &mut [Row],
    stored: &mut [u64],
    requests: &mut [i32],
    vars: &mut [i32],
    on: &mut [bool],
    room: &mut [u8],
)
    requires ahead { Ahead s.old c.mark c.site bytes.now c.head c.next }
    requires rows_len { length rows.old ≡ count (site_of (slice site_place (site_place + c.site) s.old)) }
    requires stored_len { length stored.old ≡ length rows.old }
    requires requests_len { length requests.old ≡ length rows.old }
    requires on_len { length on.old ≡ length (roofs_of (slice site_place (site_place + c.site) s.old)) }
    requires vars_len { length vars.old ≡ length rows.old + length on.old }
    requires head_in_bounds { c.out + length (records_over c.mark s.old (slice site_place (site_place + c.site) s.old) bytes.now c.head) ≤ length room.old }
    ensures s_after { s.new ≡ left_by c.mark s.old c.site bytes.now c.head c.next }
    ensures room_after { room.new ≡ laid room.old c.out
        (records_over c.mark s.old (slice site_place (site_place + c.site) s.old) bytes.now c.head) }
{
    let n = c.site;
    let m = c.mark;
    let next = c.next;
    stick::load(&s[SITE..SITE + n], rows);
    stand(s, m, n, rows, stored, requests, vars, on);
    let w = over(
        &s[SITE..SITE + n],
        rows,
        bytes,
        c,
        stored,
        requests,
        vars,
        on,
        room,
    );
    let k = mark_after(m, next, n, w.due, bytes.len());
    keep(s, k, bytes, stored, requests, vars, on);
}

// The bytes of the records of so many steps of a site.
fn bytes_of(site: &[u8], steps: u32) -> usize
    requires accepted { Accepted site.now }
    requires steps_bound { steps ≤ 65535 }
    ensures { result ≡ all_bytes (plant_of site.now) * steps }
{
    let size = RECORD_BYTES * stick::units(site) + ROOF_RECORD_BYTES * stick::roofs(site);
    size * (steps as usize)
}

// The run over whole fields: what is kept afterwards, without a tail, and their records from a place
// of the room on; the place behind them.
pub fn run(
    s: &mut [u8],
    m: Mark,
    n: usize,
    bytes: &[u8],
    head: usize,
    next: State,
    room: &mut [u8],
    out: usize,
) -> usize
    requires ahead { Ahead s.old m n bytes.now head next }
    requires head_in_bounds { out + length (records_over m s.old (slice site_place (site_place + n) s.old) bytes.now head) ≤ length room.old }
    ensures value { result ≡ out + length (records_over m s.old (slice site_place (site_place + n) s.old) bytes.now head) }
    ensures s_after { s.new ≡ left_by m s.old n bytes.now head next }
    ensures room_after { room.new ≡ laid room.old out (records_over m s.old (slice site_place (site_place + n) s.old) bytes.now head) }
{
    let units = stick::units(&s[SITE..SITE + n]);
    let roofs = stick::roofs(&s[SITE..SITE + n]);
    let size = bytes_of(&s[SITE..SITE + n], next.steps - m.state.steps);
    let mut rows = [Row::EMPTY; 64];
    let mut stored = [0u64; 64];
    let mut requests = [0i32; 64];
    let mut vars = [0i32; 128];
    let mut on = [false; 64];
    let c = Course {
        mark: m,
        site: n,
        head,
        next,
        out,
    };
    run_with(
        s,
        c,
        bytes,
        &mut rows[0..units],
        &mut stored[0..units],
        &mut requests[0..units],
        &mut vars[0..units + roofs],
        &mut on[0..roofs],
        room,
    );
    out + size
}

// Nothing stands yet.
pub fn clear_stands(s: &mut [u8])
    requires { length s.old ≡ state_size }
    ensures { s.new ≡ laid s.old held_place (stands_of [] [] [] []) }
{
    let stored = [0u64; 1];
    let requests = [0i32; 1];
    let vars = [0i32; 1];
    let on = [false; 1];
    kept::put_stands(s, &stored[0..0], &requests[0..0], &vars[0..0], &on[0..0]);
}

// Where the steps have not begun: nothing stands yet.
pub fn wait(s: &mut [u8], m: Mark, n: usize, bytes: &[u8], next: State)
    requires s_len { length s.old ≡ state_size }
    requires n_le_site_most { n ≤ site_most }
    requires tail_le_place { m.tail ≤ m.place }
    requires bytes_bound { m.place + length bytes.now ≤ 18446744073709551615 }
    ensures { s.new ≡ top_of (mark_after m next n m.due (length bytes.now)) [] ++ stands_of [] [] [] [] ++ drop site_place s.old }
{
    clear_stands(s);
    kept::put_top(s, mark_after(m, next, n, m.due, bytes.len()), bytes, 0, 0);
}
