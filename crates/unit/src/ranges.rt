ghost use Rattle.std.specs.Prelude.{◌≡◌};
ghost use Rattle.unit.specs.Ranges.{idle_draw, member_in, connection_in, unit_in, seconds_in, edition_in, limit_in, direct_in, grid_in, in_edition, idle_loss_of};

use super::Unit;

// The watts that the inverter of an idle unit draws.
pub fn idle_draw(u: Unit) -> u64
    ensures { result ≡ idle_draw u }
{
    whole::ceil((u.dc_loss as u64) * 10000, u.inverter as u64)
}

// The five values that a pass looks at are in their ranges.
pub fn member_in(rated: u64, reserve: u64, stored: u64, rating: u32, weight: u16) -> bool
    ensures { result ≡ member_in rated reserve stored rating weight }
{
    ((1 <= rated) & (rated <= 10000000000000))
        & (reserve <= rated)
        & (stored <= rated)
        & ((1 <= rating) & (rating <= 100000000))
        & ((1 <= weight) & (weight <= 10000))
}

// A connection of 1 or 3 phases at 1 to 40,000 volts.
pub fn connection_in(phases: u8, volts: u16) -> bool
    ensures { result ≡ connection_in phases volts }
{
    ((phases == 1) | (phases == 3)) & ((1 <= volts) & (volts <= 40000))
}

// Every value of the unit is in its range, and its idle draw and its var limits are at most S.
pub fn unit_in(u: Unit) -> bool
    ensures { result ≡ unit_in u }
{
    let member = member_in(u.rated, u.reserve, u.stored, u.rating, u.weight);
    let vars = u.var_request.unsigned_abs();
    let draw = idle_draw(u);
    member
        & ((1 <= u.kva) & (u.kva <= 100000000))
        & (u.dc_loss <= 10000000)
        & (u.grid_loss <= 10000000)
        & (vars <= 100000000)
        & ((1000 <= u.inverter) & (u.inverter <= 10000))
        & ((1000 <= u.charge) & (u.charge <= 10000))
        & ((1000 <= u.discharge) & (u.discharge <= 10000))
        & (u.priority <= 1)
        & (draw <= u.kva as u64)
        & (u.provide <= u.kva)
        & (u.absorb <= u.kva)
}

// The editions.
pub fn edition_in(edition: u8) -> bool
    ensures { result ≡ edition_in edition }
{
    (1 <= edition) & (edition <= 3)
}

// A var limit of a unit: its own from edition 2 on, S before.
pub fn limit_in(edition: u8, kva: u32, own: u32) -> u32
    ensures { result ≡ limit_in edition kva own }
{
    if 2 <= edition { own } else { kva }
}

// The loss on the DC side of a unit with an idle loss: none in edition 3.
pub fn direct_in(edition: u8, loss: u32) -> u32
    ensures { result ≡ direct_in edition loss }
{
    if 3 <= edition { 0 } else { loss }
}

// Its loss at the grid: all of it in edition 3.
pub fn grid_in(edition: u8, loss: u32) -> u32
    ensures { result ≡ grid_in edition loss }
{
    if 3 <= edition { loss } else { 0 }
}

// The idle loss, wherever it sits.
pub fn idle_loss(u: Unit) -> u32
    ensures { result ≡ idle_loss_of u }
{
    if u.grid_loss == 0 {
        u.dc_loss
    } else {
        u.grid_loss
    }
}

// The unit as its edition has it.
pub fn in_edition(edition: u8, u: Unit) -> Unit
    ensures { result ≡ in_edition edition u }
{
    Unit {
        dc_loss: direct_in(edition, u.dc_loss),
        provide: limit_in(edition, u.kva, u.provide),
        absorb: limit_in(edition, u.kva, u.absorb),
        grid_loss: grid_in(edition, u.dc_loss),
        ..u
    }
}

// A step of 1 to 86,400 s.
pub fn seconds_in(seconds: u32) -> bool
    ensures { result ≡ seconds_in seconds }
{
    (1 <= seconds) & (seconds <= 86400)
}
