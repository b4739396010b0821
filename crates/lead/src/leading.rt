ghost use Rattle.std.specs.Prelude.{◌≡◌, true, ◌+◌, ◌≤◌, pos, nat_abs, ◌*ℤ◌};
ghost use Rattle.whole.specs.Quotient.{cut};
ghost use Rattle.curve.specs.Curve.{curve_at};
ghost use Rattle.curve.specs.Layout.{points_at};
ghost use Rattle.lead.specs.Lead.{lead_of, first_by, base_of, requested_by, kept_by};
ghost use Rattle.lead.specs.Lead.{Modest};
ghost use Rattle.lead.specs.Posts.{leading_here, LeadingThere};

use super::Lead;

// The priority that counts: watts first where the base is what they leave of the circle.
pub fn first(l: Lead, priority: u8) -> u8
    ensures { result ≡ first_by l priority }
{
    if l.after { 0 } else { priority }
}

// What the curve's value is taken of: S, or the leg beside the watts.
fn base(after: bool, s: u32, watts: u32) -> u32
    ensures { result ≡ base_of after s watts }
{
    if after { whole::leg(s, watts) } else { s }
}

// The base times the curve's value, cut toward zero.
pub fn part(l: Lead, base: u32) -> i32
    requires modest { Modest l }
    requires base_bound { base ≤ 100000000 }
    ensures { result ≡ cut (pos base *ℤ l.y) 10000 }
{
    let size = l.y.unsigned_abs() as u64;
    let parts = (base as u64) * size / 10000;
    whole::signed32(whole::below_zero32(l.y), parts as u32)
}

// The vars requested of a unit or an inverter, by its own var request, those last requested, its S
// and the size of its inverter's watts.
pub fn requested(l: Lead, own: i32, last: i32, s: u32, watts: u32) -> i32
    requires modest { Modest l }
    requires s_bound { s ≤ 100000000 }
    ensures { result ≡ requested_by l own last s watts }
{
    if l.fresh {
        return part(l, base(l.after, s, watts));
    }
    if l.leads { last } else { own }
}

// What is kept as last requested; without a function that stands as it was.
pub fn kept(l: Lead, last: i32, requested: i32) -> i32
    ensures { result ≡ kept_by l last requested }
{
    if l.leads { requested } else { last }
}

// The value at a voltage of the curve whose field stands behind that of a function.
fn value_at(bytes: &[u8], at: usize, x: u16) -> i32
    requires { LeadingThere bytes.now true at }
    ensures value { result ≡ curve_at (points_at bytes.now (at + 7)) (pos x) }
    ensures result_bound { nat_abs result ≤ 10000 }
{
    curve::value(bytes, at + 7, x as i64) as i32
}

// What leads a step with a voltage or none, by the function whose field stands at a place of bytes,
// its curve's field behind it, if there is one.
pub fn lead_at(bytes: &[u8], there: bool, at: usize, v: Option<u16>) -> Lead
    requires { LeadingThere bytes.now there at }
    ensures value { result ≡ lead_of (leading_here bytes.now there at) v }
    ensures modest { Modest result }
{
    if !there {
        return Lead {
            leads: false,
            after: false,
            fresh: false,
            y: 0,
        };
    }
    let after = octets::u8_at(bytes, at + 3) == 1;
    let Some(x) = v else {
        return Lead {
            leads: true,
            after,
            fresh: false,
            y: 0,
        };
    };
    Lead {
        leads: true,
        after,
        fresh: true,
        y: value_at(bytes, at, x),
    }
}
