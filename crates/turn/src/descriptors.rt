// A loop of descriptors: in a sheet the fields beside it, their number, the descriptors; in a section fields and size in two bytes, the
// descriptors. The fields are given by their span, as in `pieces`.
ghost use Rattle.std.specs.Prelude.{◌≡◌, true, false};
ghost use Rattle.turn.specs.Inner.Ways.{put_number, Numbered, LoopTurned};

use crate::counts::{descriptors_in, descriptors_size};
use crate::pieces::{joined, kept_size, parted, plain};
use forms::{Place, past, put_byte};
use wire::length12_at;
use wire::numbers::byte_at;
use wire::parts::part;

pub fn put_number(room: &mut [u8], to: usize, n: usize)
    ensures { room.new ≡ put_number room.old to n }
{
    put_byte(room, to, (n / 256 % 256) as u8);
    put_byte(room, past(to, 1), (n % 256) as u8);
}

// A number of two bytes, and behind it the n bytes that stand at the place `p.at`.
fn numbered(number: usize, n: usize, s: &[u8], p: Place, room: &mut [u8]) -> Place
    ensures { Numbered number n s.now p room.old result room.new }
{
    let behind = Place {
        at: p.at,
        to: past(p.to, 2),
    };
    put_number(room, p.to, number);
    plain(s, behind, n, room)
}

fn loop_forth(span: u8, s: &[u8], p: Place, room: &mut [u8]) -> Place
    ensures { LoopTurned true span s.now p room.old result room.new }
{
    let at = past(p.at, kept_size(span));
    let n = descriptors_size(s, at);
    let fields = joined(span, s, p.at) % 16;
    let from = Place {
        at: past(at, 2),
        to: p.to,
    };
    numbered(past(fields * 4096, n), n, s, from, room)
}

fn loop_back(span: u8, s: &[u8], p: Place, room: &mut [u8]) -> Place
    ensures { LoopTurned false span s.now p room.old result room.new }
{
    let n = length12_at(s, p.at);
    let from = Place {
        at: past(p.at, 2),
        to: past(p.to, kept_size(span)),
    };
    let number = descriptors_in(part(s, from.at, n));
    parted(span, byte_at(s, p.at) / 16, room, p.to);
    numbered(number, n, s, from, room)
}

pub fn turn_loop(forth: bool, span: u8, s: &[u8], p: Place, room: &mut [u8]) -> Place
    ensures { LoopTurned forth span s.now p room.old result room.new }
{
    if forth {
        return loop_forth(span, s, p, room);
    }
    loop_back(span, s, p, room)
}
