// 0x5A terrestrial delivery system.
ghost use Rattle.std.specs.Prelude.{◌≡◌};
ghost use Rattle.layout.specs.Refusal.{told};
ghost use Rattle.delivery.specs.Terrestrial.{hertz, fields, terrestrial};

use layout::Refusal;
use layout::body::sized;
use wire::numbers::{bits_at, number32_at};

// Steps of 10 Hz.
#[derive(Clone, Copy)]
pub struct TerrestrialFrequency(pub u32);

impl TerrestrialFrequency {
    pub fn hertz(self) -> u64
        ensures { result ≡ hertz self }
    {
        10 * self.0 as u64
    }
}

#[derive(Clone, Copy)]
pub struct Terrestrial {
    pub centre_frequency: TerrestrialFrequency,
    pub bandwidth: u8,
    pub priority: bool,
    pub time_slicing_indicator: bool,
    pub mpe_fec_indicator: bool,
    pub constellation: u8,
    pub hierarchy_information: u8,
    pub code_rate_hp_stream: u8,
    pub code_rate_lp_stream: u8,
    pub guard_interval: u8,
    pub transmission_mode: u8,
    pub other_frequency_flag: bool,
}

fn fields_of(b: &[u8]) -> Terrestrial
    ensures { result ≡ fields b.now }
{
    Terrestrial {
        centre_frequency: TerrestrialFrequency(number32_at(b, 0)),
        bandwidth: bits_at(b, 4, 7, 5),
        priority: bits_at(b, 4, 4, 4) == 1,
        time_slicing_indicator: bits_at(b, 4, 3, 3) == 1,
        mpe_fec_indicator: bits_at(b, 4, 2, 2) == 1,
        constellation: bits_at(b, 5, 7, 6),
        hierarchy_information: bits_at(b, 5, 5, 3),
        code_rate_hp_stream: bits_at(b, 5, 2, 0),
        code_rate_lp_stream: bits_at(b, 6, 7, 5),
        guard_interval: bits_at(b, 6, 4, 3),
        transmission_mode: bits_at(b, 6, 2, 1),
        other_frequency_flag: bits_at(b, 6, 0, 0) == 1,
    }
}

#[tactic(auto, unfolding(crate::specs::Terrestrial::terrestrial))]
pub fn read(s: &[u8]) -> Result<Terrestrial, Refusal>
    ensures { told result ≡ terrestrial s.now }
{
    let b = sized(s, 0x5A, 11)?;
    Ok(fields_of(b))
}
