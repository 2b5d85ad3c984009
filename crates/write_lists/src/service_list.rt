// 0x41 service list. A row: service_id, service_type.
ghost use Rattle.writing.specs.Written.{Writes};
ghost use Rattle.write_lists.specs.ServiceList.{service_list_written};

use crate::kinds::Kind;
use writing::Refusal;

pub fn write(numbers: &[i32], room: &mut [u8]) -> Result<usize, Refusal>
    ensures { Writes (service_list_written numbers.now) room.old result room.new }
{
    crate::rows::write(Kind::ServiceList, numbers, room)
}
