// The descriptors that hold texts. The texts are parts of bytes that are lent.
ghost use Rattle.desk.specs.Answers.{Called};
ghost use Rattle.desk.specs.Texts.{name_given, stuffing_given, service_given, short_event_given};

use cabinet::text_readings::{Part, Service, ShortEvent};
use desk::answers::WriteAnswer;

#[unsafe(no_mangle)]
pub extern "C" fn lohitunga_write_network_name(
    name: Part,
    bytes: &[u8],
    room: &mut [u8],
) -> WriteAnswer
    ensures { Called (name_given bytes.now name) room.old result room.new }
{
    desk::text_writers::lohitunga_write_network_name(name, bytes, room)
}

#[unsafe(no_mangle)]
pub extern "C" fn lohitunga_write_stuffing(
    stuffing: Part,
    bytes: &[u8],
    room: &mut [u8],
) -> WriteAnswer
    ensures { Called (stuffing_given bytes.now stuffing) room.old result room.new }
{
    desk::text_writers::lohitunga_write_stuffing(stuffing, bytes, room)
}

#[unsafe(no_mangle)]
pub extern "C" fn lohitunga_write_service(
    service: Service,
    bytes: &[u8],
    room: &mut [u8],
) -> WriteAnswer
    ensures { Called (service_given bytes.now service) room.old result room.new }
{
    desk::text_writers::lohitunga_write_service(service, bytes, room)
}

#[unsafe(no_mangle)]
pub extern "C" fn lohitunga_write_short_event(
    short_event: ShortEvent,
    bytes: &[u8],
    room: &mut [u8],
) -> WriteAnswer
    ensures { Called (short_event_given bytes.now short_event) room.old result room.new }
{
    desk::text_writers::lohitunga_write_short_event(short_event, bytes, room)
}
