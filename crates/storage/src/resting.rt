ghost use Rattle.std.specs.Prelude.{◌≡◌};
ghost use Rattle.unit.specs.Ranges.{Ranged};
ghost use Rattle.rows.specs.Rows.{unit_by};
ghost use Rattle.storage.specs.Posts.{Told};

use super::steps;
use rows::{Kept, Row};
use unit::Unit;

// The row of a unit in its ranges, for steps of so many seconds.
pub fn row_of(u: Unit, seconds: u32) -> Row
    requires { Ranged u seconds }
    ensures result_value { unit_by result ≡ u }
    ensures told { Told seconds result }
{
    let idle = unit::idle_draw(u) as u32;
    let size = energy::limited(u);
    let least = (seconds as u64) * (u.charge as u64) / 10000;
    let kept = Kept {
        draw: idle + u.grid_loss,
        vars: steps::idle_vars(u),
        most: energy::most(u),
        floor: u.reserve + energy::removed(u, seconds, 1),
        top: if least <= u.rated { u.rated - least } else { 0 },
        full: whole::signed32(whole::below_zero32(u.var_request), size),
        clear: whole::leg(u.kva, size),
        rest: whole::leg(u.kva, idle),
    };
    Row { unit: u, kept }
}
