ghost use Rattle.std.specs.Prelude.{◌≡◌};
ghost use Rattle.whole.specs.Call.{refusal};

use super::Refusal;

// The refusal of a call without a file.
pub fn refused(number: u8) -> Refusal
    ensures { result ≡ refusal number }
{
    Refusal {
        number,
        place: 0,
        steps: 0,
    }
}
