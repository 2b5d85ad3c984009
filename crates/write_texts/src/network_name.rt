// 0x40 network name.
ghost use Rattle.writing.specs.Written.{Writes};
ghost use Rattle.write_texts.specs.NetworkName.{network_name_written};

use writing::Refusal;

pub fn write(name: &[u8], room: &mut [u8]) -> Result<usize, Refusal>
    ensures { Writes (network_name_written name.now) room.old result room.new }
{
    super::whole::write(0x40, name, room)
}
