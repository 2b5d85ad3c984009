// A body that is one text or any other bytes.
ghost use Rattle.writing.specs.Written.{Writes, headed};

use copy::copy;
use writing::numbers::put_number;
use writing::{Refusal, room_for};

pub fn write(tag: u8, bytes: &[u8], room: &mut [u8]) -> Result<usize, Refusal>
    ensures { Writes (headed tag bytes.now) room.old result room.new }
{
    room_for(room)?;
    let n = bytes.len();
    if 255 < n {
        return Err(Refusal::Long);
    }
    put_number(room, 0, 2, tag as u64 * 256 + n as u64);
    copy(bytes, 0, n, room, 2);
    Ok(n + 2)
}
