// 0x58 local time offset. A row: country_code, country_region_id, local_time_offset, then the time of change by mjd, hour, minute,
// second and undefined, then next_time_offset.
ghost use Rattle.writing.specs.Written.{Writes};
ghost use Rattle.write_lists.specs.LocalTimeOffset.{local_time_offset_written};

use crate::kinds::Kind;
use writing::Refusal;

pub fn write(numbers: &[i32], room: &mut [u8]) -> Result<usize, Refusal>
    ensures { Writes (local_time_offset_written numbers.now) room.old result room.new }
{
    crate::rows::write(Kind::LocalTimeOffset, numbers, room)
}
