// 0x43 satellite delivery system.
ghost use Rattle.std.specs.Prelude.{◌≡◌};
ghost use Rattle.layout.specs.Refusal.{told};
ghost use Rattle.delivery.specs.Satellite.{hertz, system, fields, satellite};

use layout::Refusal;
use layout::body::sized;
use layout::digits::digits_at;
use wire::numbers::bits_at;

// Steps of 10 kHz.
#[derive(Clone, Copy)]
pub struct SatelliteFrequency(pub u32);

impl SatelliteFrequency {
    pub fn hertz(self) -> u64
        ensures { result ≡ hertz self }
    {
        10_000 * self.0 as u64
    }
}

// The modulation system. The two bits of the roll-off factor are reserved in DVB-S.
#[derive(Clone, Copy)]
pub enum System {
    S,
    S2 { roll_off: u8 },
}

#[derive(Clone, Copy)]
pub struct Satellite {
    pub frequency: SatelliteFrequency,
    // In tenths of a degree.
    pub orbital_position: u32,
    // Set in the east.
    pub west_east_flag: bool,
    pub polarization: u8,
    pub modulation_system: System,
    pub modulation_type: u8,
    // In steps of 100 symbols a second.
    pub symbol_rate: u32,
    pub fec_inner: u8,
}

#[tactic(auto, unfolding(crate::specs::Satellite::system))]
fn system_of(b: &[u8]) -> System
    ensures { result ≡ system b.now }
{
    if bits_at(b, 6, 2, 2) == 0 {
        System::S
    } else {
        System::S2 {
            roll_off: bits_at(b, 6, 4, 3),
        }
    }
}

#[tactic(auto, unfolding(crate::specs::Satellite::fields))]
fn fields_of(b: &[u8]) -> Result<Satellite, Refusal>
    ensures { told result ≡ fields b.now }
{
    let frequency = digits_at(b, 0, 8)?;
    let orbital_position = digits_at(b, 4, 4)?;
    let symbol_rate = digits_at(b, 7, 7)?;
    Ok(Satellite {
        frequency: SatelliteFrequency(frequency),
        orbital_position,
        west_east_flag: bits_at(b, 6, 7, 7) == 1,
        polarization: bits_at(b, 6, 6, 5),
        modulation_system: system_of(b),
        modulation_type: bits_at(b, 6, 1, 0),
        symbol_rate,
        fec_inner: bits_at(b, 10, 3, 0),
    })
}

#[tactic(auto, unfolding(crate::specs::Satellite::satellite))]
pub fn read(s: &[u8]) -> Result<Satellite, Refusal>
    ensures { told result ≡ satellite s.now }
{
    fields_of(sized(s, 0x43, 11)?)
}
