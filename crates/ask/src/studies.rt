ghost use Rattle.std.specs.Prelude.{◌≡◌, length};
ghost use Rattle.site.specs.Site.{count};
ghost use Rattle.stick.specs.Site.{site_of};
ghost use Rattle.ask.specs.Says.{file_study, file_study_leaves};
ghost use Rattle.ask.specs.Posts.{Studying, Surveyed};

use rows::Row;
use settling::{Studied, Trial};
use whole::Refusal;

// The study over an accepted file's fleet, with rows and a list for its units.
fn study_with(
    file: &[u8],
    q: Trial,
    rows: &mut [Row],
    stored: &mut [u64],
    requests: &mut [i32],
) -> Studied
    requires studying { Studying file.now q requests.old }
    requires rows_len { length rows.old ≡ count (site_of file.now) }
    requires stored_len { length stored.old ≡ count (site_of file.now) }
    ensures { Surveyed file.now q requests.old requests.new result }
{
    stick::load(file, rows);
    rows::stores(rows, stored);
    let t = members::summed(rows);
    settling::settle_within(q, t, rows, stored, requests)
}

// The study over an accepted file's fleet.
fn study_over(file: &[u8], q: Trial, requests: &mut [i32]) -> Studied
    requires { Studying file.now q requests.old }
    ensures { Surveyed file.now q requests.old requests.new result }
{
    let n = requests.len();
    let mut rows = [Row::EMPTY; 64];
    let mut stored = [0u64; 64];
    study_with(file, q, &mut rows[0..n], &mut stored[0..n], requests)
}

// The study over a file's fleet and settings, in mode 1 whatever the file's mode. Refused are a file
// by the check's refusal, a list that has not the fleet's length (10), and a load or a budget out of
// range (5); on a refusal the requests are as they were.
pub fn study(file: &[u8], load: i64, budget: u32, requests: &mut [i32]) -> Result<Studied, Refusal>
    ensures value { result ≡ file_study file.now load budget requests.old }
    ensures requests_after { requests.new ≡ file_study_leaves file.now load budget requests.old }
{
    stick::check(file)?;
    if requests.len() != stick::units(file) {
        return Err(whole::refused(10));
    }
    let head = stick::head(file);
    let settings = head.settings;
    let q = Trial {
        settings,
        load,
        budget,
    };
    if !settling::trial_in(q) {
        return Err(whole::refused(5));
    }
    Ok(study_over(file, q, requests))
}
