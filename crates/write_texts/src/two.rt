// A number of h bytes in front of two texts, each after the byte that gives its length.
ghost use Rattle.std.specs.Prelude.{◌≡◌, ◌++◌, ◌+◌, ◌≤◌, min, length};
ghost use Rattle.forms.specs.Room.{put};
ghost use Rattle.writing.specs.Number.{ofNumber};
ghost use Rattle.writing.specs.Written.{Writes, headed};
ghost use Rattle.write_texts.specs.Texts.{lengthed, two_texts};

use copy::copy_few;
use forms::put_byte;
use writing::numbers::put_number;
use writing::{Refusal, room_for};

// The bytes of a body whose texts have a and b bytes; 256 stands for all that are too many.
fn size(h: usize, a: usize, b: usize) -> usize
    ensures { result ≡ min (h + (1 + a) + (1 + b)) 256 }
{
    if 255 < h || 255 < a || 255 < b || 253 < h + a + b {
        return 256;
    }
    h + a + b + 2
}

// A text after its length, at a place.
fn put_text(room: &mut [u8], to: usize, text: &[u8])
    requires { (length text.now ≤ 255) × (to + 1 + length text.now ≤ length room.old) }
    ensures { room.new ≡ put room.old to (lengthed text.now) }
{
    let n = text.len();
    put_byte(room, to, n as u8);
    copy_few(text, 0, n, room, to + 1);
}

// The number and both texts, behind a tag and a length.
fn put_body(room: &mut [u8], h: usize, head: u32, first: &[u8], second: &[u8])
    requires { (h + (1 + length first.now) + (1 + length second.now) ≤ 255) × (257 ≤ length room.old) }
    ensures { room.new ≡ put room.old 2
        (ofNumber h head ++ two_texts first.now second.now) }
{
    put_number(room, 2, h, head as u64);
    put_text(room, 2 + h, first);
    put_text(room, 3 + h + first.len(), second);
}

pub fn write(
    tag: u8,
    h: usize,
    head: u32,
    first: &[u8],
    second: &[u8],
    room: &mut [u8],
) -> Result<usize, Refusal>
    ensures { Writes (headed tag (ofNumber h head ++ two_texts first.now second.now))
        room.old result room.new }
{
    room_for(room)?;
    let n = size(h, first.len(), second.len());
    if 255 < n {
        return Err(Refusal::Long);
    }
    put_number(room, 0, 2, tag as u64 * 256 + n as u64);
    put_body(room, h, head, first, second);
    Ok(n + 2)
}
