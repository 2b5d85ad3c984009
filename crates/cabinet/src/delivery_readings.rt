// The delivery systems.
ghost use Rattle.std.specs.Prelude.{◌≡◌, ◌*◌};
ghost use Rattle.delivery.specs.Satellite.{satellite};
ghost use Rattle.delivery.specs.Cable.{cable};
ghost use Rattle.delivery.specs.Terrestrial.{terrestrial};
ghost use Rattle.cabinet.specs.Delivery.{system_bit, rollOff, satellite_says, satellite_answer};
ghost use Rattle.cabinet.specs.Delivery.{cable_says, cable_answer};
ghost use Rattle.cabinet.specs.Delivery.{terrestrial_says, terrestrial_answer};

use crate::numbers::{of_flag, of_refusal, why_of};
use delivery::{cable, satellite, terrestrial};

// Steps of 10 kHz.
#[repr(C)]
#[derive(Clone, Copy, Default)]
pub struct SatelliteFrequency {
    pub steps: u32,
}

// Steps of 100 Hz.
#[repr(C)]
#[derive(Clone, Copy, Default)]
pub struct CableFrequency {
    pub steps: u32,
}

// Steps of 10 Hz.
#[repr(C)]
#[derive(Clone, Copy, Default)]
pub struct TerrestrialFrequency {
    pub steps: u32,
}

#[repr(C)]
#[derive(Clone, Copy, Default)]
pub struct Satellite {
    pub frequency: SatelliteFrequency,
    // In tenths of a degree.
    pub orbital_position: u32,
    // In steps of 100 symbols a second.
    pub symbol_rate: u32,
    // 1 in the east.
    pub west_east_flag: u8,
    pub polarization: u8,
    // 1 for DVB-S2.
    pub modulation_system: u8,
    // Of DVB-S2 alone.
    pub roll_off: u8,
    pub modulation_type: u8,
    pub fec_inner: u8,
}

#[repr(C)]
#[derive(Clone, Copy, Default)]
pub struct SatelliteAnswer {
    pub number: u32,
    pub place: usize,
    pub digit: u32,
    pub satellite: Satellite,
}

#[repr(C)]
#[derive(Clone, Copy, Default)]
pub struct Cable {
    pub frequency: CableFrequency,
    // In steps of 100 symbols a second.
    pub symbol_rate: u32,
    pub fec_outer: u8,
    pub modulation: u8,
    pub fec_inner: u8,
}

#[repr(C)]
#[derive(Clone, Copy, Default)]
pub struct CableAnswer {
    pub number: u32,
    pub place: usize,
    pub digit: u32,
    pub cable: Cable,
}

#[repr(C)]
#[derive(Clone, Copy, Default)]
pub struct Terrestrial {
    pub centre_frequency: TerrestrialFrequency,
    pub bandwidth: u8,
    pub priority: u8,
    pub time_slicing_indicator: u8,
    pub mpe_fec_indicator: u8,
    pub constellation: u8,
    pub hierarchy_information: u8,
    pub code_rate_hp_stream: u8,
    pub code_rate_lp_stream: u8,
    pub guard_interval: u8,
    pub transmission_mode: u8,
    pub other_frequency_flag: u8,
}

#[repr(C)]
#[derive(Clone, Copy, Default)]
pub struct TerrestrialAnswer {
    pub number: u32,
    pub terrestrial: Terrestrial,
}

#[unsafe(no_mangle)]
pub extern "C" fn lohitunga_satellite_hertz(frequency: SatelliteFrequency) -> u64
    ensures { result ≡ 10000 * frequency.steps }
{
    satellite::SatelliteFrequency(frequency.steps).hertz()
}

#[unsafe(no_mangle)]
pub extern "C" fn lohitunga_cable_hertz(frequency: CableFrequency) -> u64
    ensures { result ≡ 100 * frequency.steps }
{
    cable::CableFrequency(frequency.steps).hertz()
}

#[unsafe(no_mangle)]
pub extern "C" fn lohitunga_terrestrial_hertz(frequency: TerrestrialFrequency) -> u64
    ensures { result ≡ 10 * frequency.steps }
{
    terrestrial::TerrestrialFrequency(frequency.steps).hertz()
}

fn system_bit(system: satellite::System) -> u8
    ensures { result ≡ system_bit system }
{
    match system {
        satellite::System::S => 0,
        satellite::System::S2 { roll_off: _ } => 1,
    }
}

fn roll_off(system: satellite::System) -> u8
    ensures { result ≡ rollOff system }
{
    match system {
        satellite::System::S => 0,
        satellite::System::S2 { roll_off } => roll_off,
    }
}

fn satellite_of(read: satellite::Satellite) -> Satellite
    ensures { result ≡ satellite_says read }
{
    let system = read.modulation_system;
    Satellite {
        frequency: SatelliteFrequency {
            steps: read.frequency.0,
        },
        orbital_position: read.orbital_position,
        symbol_rate: read.symbol_rate,
        west_east_flag: of_flag(read.west_east_flag),
        polarization: read.polarization,
        modulation_system: system_bit(system),
        roll_off: roll_off(system),
        modulation_type: read.modulation_type,
        fec_inner: read.fec_inner,
    }
}

#[unsafe(no_mangle)]
pub extern "C" fn lohitunga_read_satellite(descriptor: &[u8]) -> SatelliteAnswer
    ensures { result ≡ satellite_answer (satellite descriptor.now) }
{
    let none = SatelliteAnswer::default();
    match satellite::read(descriptor) {
        Ok(read) => SatelliteAnswer {
            satellite: satellite_of(read),
            ..none
        },
        Err(refusal) => {
            let why = why_of(refusal);
            SatelliteAnswer {
                number: why.number,
                place: why.place,
                digit: why.digit,
                ..none
            }
        }
    }
}

fn cable_of(read: cable::Cable) -> Cable
    ensures { result ≡ cable_says read }
{
    Cable {
        frequency: CableFrequency {
            steps: read.frequency.0,
        },
        symbol_rate: read.symbol_rate,
        fec_outer: read.fec_outer,
        modulation: read.modulation,
        fec_inner: read.fec_inner,
    }
}

#[unsafe(no_mangle)]
pub extern "C" fn lohitunga_read_cable(descriptor: &[u8]) -> CableAnswer
    ensures { result ≡ cable_answer (cable descriptor.now) }
{
    let none = CableAnswer::default();
    match cable::read(descriptor) {
        Ok(read) => CableAnswer {
            cable: cable_of(read),
            ..none
        },
        Err(refusal) => {
            let why = why_of(refusal);
            CableAnswer {
                number: why.number,
                place: why.place,
                digit: why.digit,
                ..none
            }
        }
    }
}

fn terrestrial_of(read: terrestrial::Terrestrial) -> Terrestrial
    ensures { result ≡ terrestrial_says read }
{
    Terrestrial {
        centre_frequency: TerrestrialFrequency {
            steps: read.centre_frequency.0,
        },
        bandwidth: read.bandwidth,
        priority: of_flag(read.priority),
        time_slicing_indicator: of_flag(read.time_slicing_indicator),
        mpe_fec_indicator: of_flag(read.mpe_fec_indicator),
        constellation: read.constellation,
        hierarchy_information: read.hierarchy_information,
        code_rate_hp_stream: read.code_rate_hp_stream,
        code_rate_lp_stream: read.code_rate_lp_stream,
        guard_interval: read.guard_interval,
        transmission_mode: read.transmission_mode,
        other_frequency_flag: of_flag(read.other_frequency_flag),
    }
}

#[unsafe(no_mangle)]
pub extern "C" fn lohitunga_read_terrestrial(descriptor: &[u8]) -> TerrestrialAnswer
    ensures { result ≡ terrestrial_answer (terrestrial descriptor.now) }
{
    let none = TerrestrialAnswer::default();
    match terrestrial::read(descriptor) {
        Ok(read) => TerrestrialAnswer {
            terrestrial: terrestrial_of(read),
            ..none
        },
        Err(refusal) => TerrestrialAnswer {
            number: of_refusal(refusal),
            ..none
        },
    }
}
