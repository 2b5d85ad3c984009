// The descriptors that hold texts.
ghost use Rattle.std.specs.Prelude.{◌≡◌};
ghost use Rattle.layout.specs.Refusal.{told};
ghost use Rattle.texts.specs.NetworkName.{network_name};
ghost use Rattle.texts.specs.Stuffing.{stuffing};
ghost use Rattle.texts.specs.Service.{service};
ghost use Rattle.texts.specs.ShortEvent.{short_event};
ghost use Rattle.cabinet.specs.Texts.{part_says, text_answer, service_says, service_answer};
ghost use Rattle.cabinet.specs.Texts.{short_event_says, short_event_answer};

use crate::numbers::of_refusal;
use layout::Refusal;
use texts::{network_name, service, short_event, stuffing};

// A part of the descriptor's bytes, its start counted from the tag as 0.
#[repr(C)]
#[derive(Clone, Copy, Default)]
pub struct Part {
    pub start: usize,
    pub size: usize,
}

#[repr(C)]
#[derive(Clone, Copy, Default)]
pub struct TextAnswer {
    pub number: u32,
    pub text: Part,
}

#[repr(C)]
#[derive(Clone, Copy, Default)]
pub struct Service {
    pub service_type: u8,
    pub service_provider_name: Part,
    pub service_name: Part,
}

#[repr(C)]
#[derive(Clone, Copy, Default)]
pub struct ServiceAnswer {
    pub number: u32,
    pub service: Service,
}

#[repr(C)]
#[derive(Clone, Copy, Default)]
pub struct ShortEvent {
    // Three characters, the first the highest byte.
    pub language_code: u32,
    pub event_name: Part,
    pub text: Part,
}

#[repr(C)]
#[derive(Clone, Copy, Default)]
pub struct ShortEventAnswer {
    pub number: u32,
    pub short_event: ShortEvent,
}

fn part_of(part: layout::Part) -> Part
    ensures { result ≡ part_says part }
{
    Part {
        start: part.start,
        size: part.length,
    }
}

// A body that is one part.
fn text_of(answer: Result<layout::Part, Refusal>) -> TextAnswer
    ensures { result ≡ text_answer (told answer) }
{
    let none = TextAnswer::default();
    match answer {
        Ok(read) => TextAnswer {
            text: part_of(read),
            ..none
        },
        Err(why) => TextAnswer {
            number: of_refusal(why),
            ..none
        },
    }
}

#[unsafe(no_mangle)]
pub extern "C" fn lohitunga_read_network_name(descriptor: &[u8]) -> TextAnswer
    ensures { result ≡ text_answer (network_name descriptor.now) }
{
    text_of(network_name::read(descriptor))
}

#[unsafe(no_mangle)]
pub extern "C" fn lohitunga_read_stuffing(descriptor: &[u8]) -> TextAnswer
    ensures { result ≡ text_answer (stuffing descriptor.now) }
{
    text_of(stuffing::read(descriptor))
}

fn service_of(read: service::Service) -> Service
    ensures { result ≡ service_says read }
{
    Service {
        service_type: read.service_type,
        service_provider_name: part_of(read.service_provider_name),
        service_name: part_of(read.service_name),
    }
}

#[unsafe(no_mangle)]
pub extern "C" fn lohitunga_read_service(descriptor: &[u8]) -> ServiceAnswer
    ensures { result ≡ service_answer (service descriptor.now) }
{
    let none = ServiceAnswer::default();
    match service::read(descriptor) {
        Ok(read) => ServiceAnswer {
            service: service_of(read),
            ..none
        },
        Err(why) => ServiceAnswer {
            number: of_refusal(why),
            ..none
        },
    }
}

fn short_event_of(read: short_event::ShortEvent) -> ShortEvent
    ensures { result ≡ short_event_says read }
{
    ShortEvent {
        language_code: read.language_code,
        event_name: part_of(read.event_name),
        text: part_of(read.text),
    }
}

#[unsafe(no_mangle)]
pub extern "C" fn lohitunga_read_short_event(descriptor: &[u8]) -> ShortEventAnswer
    ensures { result ≡ short_event_answer (short_event descriptor.now) }
{
    let none = ShortEventAnswer::default();
    match short_event::read(descriptor) {
        Ok(read) => ShortEventAnswer {
            short_event: short_event_of(read),
            ..none
        },
        Err(why) => ShortEventAnswer {
            number: of_refusal(why),
            ..none
        },
    }
}
