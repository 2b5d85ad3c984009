// What they have alike: a body of 4, 3 and 4 bytes, and in two of them the last four bytes.
ghost use Rattle.std.specs.Prelude.{◌≡◌, ◌∷◌, ◌++◌, ◌+◌, ◌*◌, ◌^◌, ◌<◌, ◌≤◌, length};
ghost use Rattle.wire.specs.Digits.{bcd_show};
ghost use Rattle.forms.specs.Room.{put};
ghost use Rattle.writing.specs.Number.{ofNumber};

use writing::digits::to_bcd;
use writing::numbers::put_number;

// The tag, the length and the body, at the room's start.
pub fn put_body(room: &mut [u8], tag: u8, first: u32, middle: u32, last: u32)
    requires { 13 ≤ length room.old }
    ensures { room.new ≡ put room.old 0
        (tag ∷ 11 ∷ (ofNumber 4 first ++ (ofNumber 3 middle ++ ofNumber 4 last))) }
{
    let head = tag as u64 * 256 + 11;
    put_number(room, 0, 6, head * 0x1_0000_0000 + first as u64);
    put_number(room, 6, 7, middle as u64 * 0x1_0000_0000 + last as u64);
}

// The symbol rate, of seven digits, and FEC_inner behind it.
pub fn rate_bits(rate: u32, inner: u8) -> u32
    requires { (rate < 10 ^ 7) × (inner < 2 ^ 4) }
    ensures { result ≡ bcd_show 7 rate * 16 + inner }
{
    to_bcd(rate) * 16 + inner as u32
}
