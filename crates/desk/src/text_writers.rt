// The descriptors that hold texts. The texts are parts of bytes that are lent.
ghost use Rattle.std.specs.Prelude.{◌≡◌};
ghost use Rattle.desk.specs.Answers.{Called};
ghost use Rattle.desk.specs.Texts.{lies_in, text_of, name_given, stuffing_given, service_given, short_event_given};

use crate::answers::{WriteAnswer, answer_of, outside};
use cabinet::text_readings::{Part, Service, ShortEvent};
use copy::lacks;
use wire::parts::part;
use write_texts::{network_name, service, short_event, stuffing};

fn lies_in(p: Part, bytes: &[u8]) -> bool
    ensures { result ≡ lies_in bytes.now p }
{
    !lacks(bytes.len(), p.start, p.size)
}

// The bytes of a part.
fn text(bytes: &[u8], p: Part) -> &[u8]
    ensures { result.now ≡ text_of bytes.now p }
{
    part(bytes, p.start, p.size)
}

#[unsafe(no_mangle)]
pub extern "C" fn lohitunga_write_network_name(
    name: Part,
    bytes: &[u8],
    room: &mut [u8],
) -> WriteAnswer
    ensures { Called (name_given bytes.now name) room.old result room.new }
{
    if !lies_in(name, bytes) {
        return outside(room.len());
    }
    answer_of(network_name::write(text(bytes, name), room))
}

#[unsafe(no_mangle)]
pub extern "C" fn lohitunga_write_stuffing(
    stuffing: Part,
    bytes: &[u8],
    room: &mut [u8],
) -> WriteAnswer
    ensures { Called (stuffing_given bytes.now stuffing) room.old result room.new }
{
    if !lies_in(stuffing, bytes) {
        return outside(room.len());
    }
    answer_of(stuffing::write(text(bytes, stuffing), room))
}

#[unsafe(no_mangle)]
pub extern "C" fn lohitunga_write_service(
    service: Service,
    bytes: &[u8],
    room: &mut [u8],
) -> WriteAnswer
    ensures { Called (service_given bytes.now service) room.old result room.new }
{
    let provider = service.service_provider_name;
    let name = service.service_name;
    if !lies_in(provider, bytes) {
        return outside(room.len());
    }
    if !lies_in(name, bytes) {
        return outside(room.len());
    }
    answer_of(service::write(
        service.service_type,
        text(bytes, provider),
        text(bytes, name),
        room,
    ))
}

#[unsafe(no_mangle)]
pub extern "C" fn lohitunga_write_short_event(
    short_event: ShortEvent,
    bytes: &[u8],
    room: &mut [u8],
) -> WriteAnswer
    ensures { Called (short_event_given bytes.now short_event) room.old result room.new }
{
    let name = short_event.event_name;
    let description = short_event.text;
    if !lies_in(name, bytes) {
        return outside(room.len());
    }
    if !lies_in(description, bytes) {
        return outside(room.len());
    }
    answer_of(short_event::write(
        short_event.language_code,
        text(bytes, name),
        text(bytes, description),
        room,
    ))
}
