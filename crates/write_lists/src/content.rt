// 0x54 content. A row: content_nibble_level_1, content_nibble_level_2, user_byte.
ghost use Rattle.writing.specs.Written.{Writes};
ghost use Rattle.write_lists.specs.Content.{content_written};

use crate::kinds::Kind;
use writing::Refusal;

pub fn write(numbers: &[i32], room: &mut [u8]) -> Result<usize, Refusal>
    ensures { Writes (content_written numbers.now) room.old result room.new }
{
    crate::rows::write(Kind::Content, numbers, room)
}
