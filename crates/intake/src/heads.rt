ghost use Rattle.std.specs.Prelude.{◌≡◌};
ghost use Rattle.stick.specs.Site.{of_steps};
ghost use Rattle.taking.specs.Chunk.{head_in};
ghost use Rattle.intake.specs.Posts.{Walked};

use fields::HEADER;

// Whether a tag is that of a field that a step has, or of the end field.
fn of_steps(tag: u8) -> bool
    ensures { result ≡ of_steps tag }
{
    (tag == 4) | (tag == 5) | (tag == 9) | (tag == 8) | (tag == 12) | (tag == 127)
}

// Where the fields before the steps end, in whole fields.
pub fn head_end(bytes: &[u8]) -> usize
    requires { Walked bytes.now }
    ensures { result ≡ head_in bytes.now }
{
    let mut at = 0;
    while at < bytes.len() {
        if of_steps(octets::u8_at(bytes, at)) {
            return at;
        }
        at += HEADER + (octets::u16_at(bytes, at + 1) as usize);
    }
    at
}
