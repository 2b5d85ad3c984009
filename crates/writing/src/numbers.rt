// Numbers put into a room as bytes, the highest first.
ghost use Rattle.std.specs.Prelude.{◌≡◌, ◌*◌, ◌/◌, ◌%◌, ◌^◌};
ghost use Rattle.forms.specs.Room.{put};
ghost use Rattle.writing.specs.Number.{ofNumber};

use copy::lacks;

// The byte of a number that has k bytes below it.
fn byte_of(x: u64, k: usize) -> u8
    ensures { result ≡ x / 2 ^ (8 * k) % 256 }
{
    if 7 < k {
        return 0;
    }
    ((x >> (8 * k as u32)) % 256) as u8
}

// The n low bytes of a number at a place of the room, where it has so many there; otherwise it stays.
pub fn put_number(room: &mut [u8], to: usize, n: usize, x: u64)
    ensures { room.new ≡ put room.old to (ofNumber n x) }
{
    if lacks(room.len(), to, n) {
        return;
    }
    for i in 0..n {
        room[to + i] = byte_of(x, n - 1 - i);
    }
}
