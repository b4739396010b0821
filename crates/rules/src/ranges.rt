ghost use Rattle.std.specs.Prelude.{◌≡◌};
ghost use Rattle.rules.specs.Ranges.{settings_in, measure_in, current_in};

use super::Settings;

// The settings are in their ranges.
pub fn settings_in(s: Settings) -> bool
    ensures { result ≡ settings_in s }
{
    let size = s.target.unsigned_abs();
    ((1 <= s.mode) & (s.mode <= 5))
        & (size <= 100000000)
        & (s.band <= 200000000)
        & ((1 <= s.factor) & (s.factor <= 1000))
}

// A measure handed straight to a pass is in its range.
pub fn measure_in(measure: i64) -> bool
    ensures { result ≡ measure_in measure }
{
    measure.unsigned_abs() <= 300000000
}

// A measure by current handed straight to a pass is in its range.
pub fn current_in(measure: i64) -> bool
    ensures { result ≡ current_in measure }
{
    (0 <= measure) & (measure <= 300000000)
}
