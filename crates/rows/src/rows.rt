ghost use Rattle.std.specs.Prelude.{◌≡◌, ◌<◌, length, get_or};
ghost use Rattle.unit.specs.Ranges.{holding};
ghost use Rattle.rows.specs.Rows.{no_row, unit_by, stores_by};

use super::Row;
use unit::Unit;

// The unit of row i, which holds so much.
pub fn unit_holding(units: &[Row], i: usize, held: u64) -> Unit
    requires { i < length units.now }
    ensures { result ≡ holding (unit_by (get_or units.now i no_row)) held }
{
    Unit {
        stored: held,
        ..units[i].unit
    }
}

// Fills a list with what the units of rows hold.
pub fn stores(units: &[Row], stored: &mut [u64])
    requires { length stored.old ≡ length units.now }
    ensures { stored.new ≡ stores_by units.now }
{
    for i in 0..stored.len() {
        stored[i] = units[i].unit.stored;
    }
}
