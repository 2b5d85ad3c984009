// The delivery systems.
ghost use Rattle.std.specs.Prelude.{◌≡◌};
ghost use Rattle.desk.specs.Answers.{Called};
ghost use Rattle.desk.specs.Delivery.{cable_given, satellite_given, terrestrial_given};
ghost use Rattle.desk.specs.Delivery.{are_flags, system_of, told_system, satellite_of, terrestrial_of};

use crate::answers::{WriteAnswer, answer_of, outside};
use cabinet::delivery_readings::{Cable, Satellite, Terrestrial};
use delivery::{cable, satellite, terrestrial};

#[unsafe(no_mangle)]
pub extern "C" fn lohitunga_write_cable(cable: Cable, room: &mut [u8]) -> WriteAnswer
    ensures { Called (cable_given cable) room.old result room.new }
{
    let fields = cable::Cable {
        frequency: cable::CableFrequency(cable.frequency.steps),
        fec_outer: cable.fec_outer,
        modulation: cable.modulation,
        symbol_rate: cable.symbol_rate,
        fec_inner: cable.fec_inner,
    };
    answer_of(write_delivery::cable::write(fields, room))
}

// A modulation system by its two fields; DVB-S has no roll-off factor.
#[tactic(auto, unfolding(crate::specs::Delivery::system_of))]
fn system_of(modulation_system: u8, roll_off: u8) -> Option<satellite::System>
    ensures { told_system result ≡ system_of modulation_system roll_off }
{
    match (modulation_system, roll_off) {
        (1, roll_off) => Some(satellite::System::S2 { roll_off }),
        (0, 0) => Some(satellite::System::S),
        _ => None,
    }
}

fn satellite_of(c: Satellite, system: satellite::System) -> satellite::Satellite
    ensures { result ≡ satellite_of c system }
{
    satellite::Satellite {
        frequency: satellite::SatelliteFrequency(c.frequency.steps),
        orbital_position: c.orbital_position,
        west_east_flag: c.west_east_flag == 1,
        polarization: c.polarization,
        modulation_system: system,
        modulation_type: c.modulation_type,
        symbol_rate: c.symbol_rate,
        fec_inner: c.fec_inner,
    }
}

#[unsafe(no_mangle)]
pub extern "C" fn lohitunga_write_satellite(satellite: Satellite, room: &mut [u8]) -> WriteAnswer
    ensures { Called (satellite_given satellite) room.old result room.new }
{
    if 1 < satellite.west_east_flag {
        return outside(room.len());
    }
    let Some(system) = system_of(satellite.modulation_system, satellite.roll_off) else {
        return outside(room.len());
    };
    answer_of(write_delivery::satellite::write(satellite_of(satellite, system), room))
}

// Each flag is 0 or 1.
#[tactic(auto, unfolding(crate::specs::Delivery::are_flags, writing::specs::Fill::below))]
fn are_flags(c: Terrestrial) -> bool
    ensures { result ≡ are_flags c }
{
    c.priority <= 1
        && c.time_slicing_indicator <= 1
        && c.mpe_fec_indicator <= 1
        && c.other_frequency_flag <= 1
}

fn terrestrial_of(c: Terrestrial) -> terrestrial::Terrestrial
    ensures { result ≡ terrestrial_of c }
{
    terrestrial::Terrestrial {
        centre_frequency: terrestrial::TerrestrialFrequency(c.centre_frequency.steps),
        bandwidth: c.bandwidth,
        priority: c.priority == 1,
        time_slicing_indicator: c.time_slicing_indicator == 1,
        mpe_fec_indicator: c.mpe_fec_indicator == 1,
        constellation: c.constellation,
        hierarchy_information: c.hierarchy_information,
        code_rate_hp_stream: c.code_rate_hp_stream,
        code_rate_lp_stream: c.code_rate_lp_stream,
        guard_interval: c.guard_interval,
        transmission_mode: c.transmission_mode,
        other_frequency_flag: c.other_frequency_flag == 1,
    }
}

#[unsafe(no_mangle)]
pub extern "C" fn lohitunga_write_terrestrial(
    terrestrial: Terrestrial,
    room: &mut [u8],
) -> WriteAnswer
    ensures { Called (terrestrial_given terrestrial) room.old result room.new }
{
    if !are_flags(terrestrial) {
        return outside(room.len());
    }
    answer_of(write_delivery::terrestrial::write(terrestrial_of(terrestrial), room))
}
