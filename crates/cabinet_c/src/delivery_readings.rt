// The delivery systems.
ghost use Rattle.std.specs.Prelude.{◌≡◌, ◌*◌};
ghost use Rattle.delivery.specs.Satellite.{satellite};
ghost use Rattle.delivery.specs.Cable.{cable};
ghost use Rattle.delivery.specs.Terrestrial.{terrestrial};
ghost use Rattle.cabinet.specs.Delivery.{satellite_answer, cable_answer, terrestrial_answer};

use cabinet::delivery_readings::{
    CableAnswer, CableFrequency, SatelliteAnswer, SatelliteFrequency, TerrestrialAnswer,
    TerrestrialFrequency,
};

#[unsafe(no_mangle)]
pub extern "C" fn lohitunga_satellite_hertz(frequency: SatelliteFrequency) -> u64
    ensures { result ≡ 10000 * frequency.steps }
{
    cabinet::delivery_readings::lohitunga_satellite_hertz(frequency)
}

#[unsafe(no_mangle)]
pub extern "C" fn lohitunga_cable_hertz(frequency: CableFrequency) -> u64
    ensures { result ≡ 100 * frequency.steps }
{
    cabinet::delivery_readings::lohitunga_cable_hertz(frequency)
}

#[unsafe(no_mangle)]
pub extern "C" fn lohitunga_terrestrial_hertz(frequency: TerrestrialFrequency) -> u64
    ensures { result ≡ 10 * frequency.steps }
{
    cabinet::delivery_readings::lohitunga_terrestrial_hertz(frequency)
}

#[unsafe(no_mangle)]
pub extern "C" fn lohitunga_read_satellite(descriptor: &[u8]) -> SatelliteAnswer
    ensures { result ≡ satellite_answer (satellite descriptor.now) }
{
    cabinet::delivery_readings::lohitunga_read_satellite(descriptor)
}

#[unsafe(no_mangle)]
pub extern "C" fn lohitunga_read_cable(descriptor: &[u8]) -> CableAnswer
    ensures { result ≡ cable_answer (cable descriptor.now) }
{
    cabinet::delivery_readings::lohitunga_read_cable(descriptor)
}

#[unsafe(no_mangle)]
pub extern "C" fn lohitunga_read_terrestrial(descriptor: &[u8]) -> TerrestrialAnswer
    ensures { result ≡ terrestrial_answer (terrestrial descriptor.now) }
{
    cabinet::delivery_readings::lohitunga_read_terrestrial(descriptor)
}
