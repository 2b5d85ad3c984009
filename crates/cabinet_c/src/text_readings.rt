// The descriptors that hold texts.
ghost use Rattle.std.specs.Prelude.{◌≡◌};
ghost use Rattle.texts.specs.NetworkName.{network_name};
ghost use Rattle.texts.specs.Stuffing.{stuffing};
ghost use Rattle.texts.specs.Service.{service};
ghost use Rattle.texts.specs.ShortEvent.{short_event};
ghost use Rattle.cabinet.specs.Texts.{text_answer, service_answer, short_event_answer};

use cabinet::text_readings::{ServiceAnswer, ShortEventAnswer, TextAnswer};

#[unsafe(no_mangle)]
pub extern "C" fn lohitunga_read_network_name(descriptor: &[u8]) -> TextAnswer
    ensures { result ≡ text_answer (network_name descriptor.now) }
{
    cabinet::text_readings::lohitunga_read_network_name(descriptor)
}

#[unsafe(no_mangle)]
pub extern "C" fn lohitunga_read_stuffing(descriptor: &[u8]) -> TextAnswer
    ensures { result ≡ text_answer (stuffing descriptor.now) }
{
    cabinet::text_readings::lohitunga_read_stuffing(descriptor)
}

#[unsafe(no_mangle)]
pub extern "C" fn lohitunga_read_service(descriptor: &[u8]) -> ServiceAnswer
    ensures { result ≡ service_answer (service descriptor.now) }
{
    cabinet::text_readings::lohitunga_read_service(descriptor)
}

#[unsafe(no_mangle)]
pub extern "C" fn lohitunga_read_short_event(descriptor: &[u8]) -> ShortEventAnswer
    ensures { result ≡ short_event_answer (short_event descriptor.now) }
{
    cabinet::text_readings::lohitunga_read_short_event(descriptor)
}
