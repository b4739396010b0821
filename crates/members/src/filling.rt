ghost use Rattle.std.specs.Prelude.{◌≡◌, length};
ghost use Rattle.members.specs.Ranges.{fleet_linked, links_of};
ghost use Rattle.members.specs.Posts.{SameLengths, MemberRow, fleet_by};

use rows::Row;
use unit::Unit;

// The row of a unit of which a pass knows these values alone.
fn member_row(rated: u64, reserve: u64, rating: u32, weight: u16, link: u32) -> Row
    ensures { MemberRow rated reserve rating weight link result }
{
    Row {
        unit: Unit {
            rated,
            reserve,
            rating,
            weight,
            link,
            ..Row::EMPTY.unit
        },
        ..Row::EMPTY
    }
}

// Fills rows with the units of lent lists; what each holds stays in its list.
pub fn fill(
    rated: &[u64],
    reserve: &[u64],
    stored: &[u64],
    rating: &[u32],
    weight: &[u16],
    links: &[u32],
    rows: &mut [Row],
)
    requires { SameLengths (fleet_linked rated.now reserve.now stored.now rating.now weight.now links.now) (length rows.old) }
    ensures { fleet_by rows.new stored.now ≡
        fleet_linked rated.now reserve.now stored.now rating.now weight.now links.now }
{
    for i in 0..rows.len() {
        rows[i] = member_row(rated[i], reserve[i], rating[i], weight[i], links[i]);
    }
}

// Fills a list with what an ampere is in watts, for each unit, by its phases and its volts.
pub fn link_all(phases: &[u8], volts: &[u16], links: &mut [u32])
    requires phases_len { length phases.now ≡ length links.old }
    requires volts_len { length volts.now ≡ length links.old }
    ensures { links.new ≡ links_of phases.now volts.now }
{
    for i in 0..links.len() {
        links[i] = (phases[i] as u32) * (volts[i] as u32);
    }
}
