// The pieces of a table that are turned by themselves. Each reads at one place and writes at the other.
ghost use Rattle.std.specs.Prelude.{◌≡◌};
ghost use Rattle.forms.specs.Form.{raw};
ghost use Rattle.forms.specs.Inner.Turning.{Turned};
ghost use Rattle.turn.specs.Inner.Fields.{kept_size, joined_at, Parted};
ghost use Rattle.turn.specs.Inner.Ways.{ByteTurned};

use copy::copy_few;
use forms::{Place, past, put_byte};
use wire::numbers::byte_at;
use wire::wide;

// n bytes that are the same in both forms.
pub fn plain(s: &[u8], p: Place, n: usize, room: &mut [u8]) -> Place
    ensures { Turned (raw n) (raw n) s.now p room.old result room.new }
{
    if copy_few(s, p.at, n, room, p.to) {
        return Place {
            at: p.at + n,
            to: p.to + n,
        };
    }
    p
}

// Fields are a value below `span` and a flag, with reserved bits before them; or reserved bits alone, where `span` is 0.
// This is how many bytes they are in a sheet.
pub fn kept_size(span: u8) -> usize
    ensures { result ≡ kept_size span }
{
    if span == 0 { 0 } else { 2 }
}

// The fields in the low bits of a number, as a section has them; the bits above them are ones.
pub fn joined(span: u8, s: &[u8], at: usize) -> usize
    ensures { result ≡ joined_at span s.now at }
{
    if span == 0 {
        return 255;
    }
    512 - 2 * wide(span) + wide(byte_at(s, at)) * 2 + wide(byte_at(s, past(at, 1)))
}

// The fields x of a section, into a sheet.
pub fn parted(span: u8, x: u8, room: &mut [u8], to: usize)
    ensures { Parted span x room.old to room.new }
{
    if span == 0 {
        return;
    }
    put_byte(room, to, x / 2 % span);
    put_byte(room, past(to, 1), x % 2);
}

// A byte of fields.
pub fn packed(forth: bool, span: u8, s: &[u8], p: Place, room: &mut [u8]) -> Place
    ensures { ByteTurned forth span s.now p room.old result room.new }
{
    if forth {
        put_byte(room, p.to, (joined(span, s, p.at) % 256) as u8);
        return Place {
            at: past(p.at, kept_size(span)),
            to: past(p.to, 1),
        };
    }
    parted(span, byte_at(s, p.at), room, p.to);
    Place {
        at: past(p.at, 1),
        to: past(p.to, kept_size(span)),
    }
}
