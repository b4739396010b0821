ghost use Rattle.std.specs.Prelude.{◌≡◌};
ghost use Rattle.ask.specs.Says.{units_said, inverters_said, seconds_said, head_answer, unit_answer, connection_answer};

use super::Connection;
use site::Head;
use unit::Unit;
use whole::Refusal;

// The number of units of an accepted file, 0 of any other.
pub fn units(file: &[u8]) -> u32
    ensures { result ≡ units_said file.now }
{
    match stick::check(file) {
        Ok(_) => stick::units(file) as u32,
        Err(_) => 0,
    }
}

// The number of inverters of an accepted file, 0 of any other.
pub fn inverters(file: &[u8]) -> u32
    ensures { result ≡ inverters_said file.now }
{
    match stick::check(file) {
        Ok(_) => stick::roofs(file) as u32,
        Err(_) => 0,
    }
}

// The seconds of a step of an accepted file, 0 of any other.
pub fn seconds(file: &[u8]) -> u32
    ensures { result ≡ seconds_said file.now }
{
    match stick::check(file) {
        Ok(_) => stick::head(file).seconds,
        Err(_) => 0,
    }
}

// What a file says beside its units.
pub fn head(file: &[u8]) -> Result<Head, Refusal>
    ensures { result ≡ head_answer file.now }
{
    match stick::check(file) {
        Ok(_) => Ok(stick::head(file)),
        Err(r) => Err(r),
    }
}

// Unit i of a file.
pub fn unit(file: &[u8], i: u32) -> Result<Unit, Refusal>
    ensures { result ≡ unit_answer file.now i }
{
    stick::check(file)?;
    let place = i as usize;
    if place < stick::units(file) {
        return Ok(stick::unit(file, place));
    }
    Err(whole::refused(10))
}

// The connection of unit i of a file.
pub fn connection_of(file: &[u8], i: u32) -> Result<Connection, Refusal>
    ensures { result ≡ connection_answer file.now i }
{
    stick::check(file)?;
    let place = i as usize;
    if stick::units(file) <= place {
        return Err(whole::refused(10));
    }
    if !stick::is_connected(file) {
        return Err(whole::refused(10));
    }
    Ok(Connection {
        phases: stick::phases(file, place),
        volts: stick::volts(file, place),
    })
}
