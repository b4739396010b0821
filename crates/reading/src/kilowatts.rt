ghost use Rattle.std.specs.Prelude.{◌≡◌};
ghost use Rattle.std.specs.Float.{binary64};
ghost use Rattle.std.specs.Float.Ieee.{to_bits};
ghost use Rattle.reading.specs.Kilowatts.{kw_of};

// A watt count in kW: as a double, divided by one thousand, rounded once.
pub fn kw(watts: i32) -> f64
    ensures { result ≡ kw_of watts }
{
    (watts as f64) / 1000.0
}

// The bit pattern of a watt count in kW.
pub fn kw_bits(watts: i32) -> u64
    ensures { result ≡ to_bits binary64 (kw_of watts) }
{
    octets::bits_of(kw(watts))
}
