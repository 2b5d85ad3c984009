// 0x42 stuffing.
ghost use Rattle.writing.specs.Written.{Writes};
ghost use Rattle.write_texts.specs.Stuffing.{stuffing_written};

use writing::Refusal;

pub fn write(bytes: &[u8], room: &mut [u8]) -> Result<usize, Refusal>
    ensures { Writes (stuffing_written bytes.now) room.old result room.new }
{
    super::whole::write(0x42, bytes, room)
}
