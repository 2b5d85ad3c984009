// 0x4D short event.
ghost use Rattle.writing.specs.Written.{Writes};
ghost use Rattle.write_texts.specs.ShortEvent.{short_event_written};

use writing::{Refusal, room_for};

pub fn write(
    language_code: u32,
    name: &[u8],
    text: &[u8],
    room: &mut [u8],
) -> Result<usize, Refusal>
    ensures { Writes (short_event_written (record {
      language_code = language_code;
      event_name = name.now;
      text = text.now;
    }))
        room.old result room.new }
{
    room_for(room)?;
    if 0xFF_FFFF < language_code {
        return Err(Refusal::Field);
    }
    super::two::write(0x4D, 3, language_code, name, text, room)
}
