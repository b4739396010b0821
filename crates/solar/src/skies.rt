ghost use Rattle.std.specs.Prelude.{◌≡◌};
ghost use Rattle.solar.specs.Weather.{sky_of};

use super::{Sun, Weather};

// The sun of a weather, any two doubles.
pub fn sky_of(w: Weather) -> Option<Sun>
    ensures { result ≡ sky_of w }
{
    let Some(i) = reading::converted(w.irradiance) else {
        return None;
    };
    let Some(t) = reading::converted(w.temperature) else {
        return None;
    };
    if i < 0 {
        return None;
    }
    Some(Sun {
        irradiance: i as u32,
        temperature: t,
    })
}
