// The packets, one after another, in the room.
ghost use Rattle.std.specs.Prelude.{◌≡◌, false, ◌+◌, ◌-◌, ◌*◌, ◌≤◌, ◌<◌, length, take, replicate};
ghost use mathlib.Core.List.{◌++◌, flatten};
ghost use Rattle.copy.specs.Laid.{over, laid};
ghost use Rattle.writer.specs.Layout.{turn_of, payload_of, laid_out, turns_from};
ghost use Rattle.writer.specs.Packets.{header_of, packet_of, packets_from};
ghost use Rattle.writer.specs.Inner.{ahead_of, pointed_at, Puts};

use crate::layout::Ahead;
use crate::stream::Stream;
use copy::copy;

// The pointer, where there is one; it tells where the sections' bytes then begin.
fn put_pointer(packet: &mut [u8], pointer: Option<u8>) -> usize
    requires { 4 < length packet.old }
    ensures { (packet.new ≡ laid packet.old 4 (pointed_at pointer))
        × (result ≡ 4 + length (pointed_at pointer)) }
{
    if let Some(p) = pointer {
        packet[4] = p;
        return 5;
    }
    4
}

// 0xFF to a packet's end.
fn fill(rest: &mut [u8])
    ensures { rest.new ≡ replicate (length rest.old) 0xFF }
{
    rest.fill(0xFF);
}

// A packet with the first of the bytes that are ahead; it tells how many they are.
fn put_packet(packet: &mut [u8], stream: Stream, a: Ahead) -> usize
    requires { length packet.old ≡ 188 }
    ensures { (packet.new ≡ packet_of stream.pid stream.counter (payload_of (turn_of (ahead_of a.entry)) a.entry.bytes.now))
        × (result ≡ (turn_of (ahead_of a.entry)).bytes) }
{
    let t = a.next_turn();
    packet[..4].copy_from_slice(&stream.header(t.pointer.is_some()));
    let from = put_pointer(packet, t.pointer);
    copy(a.bytes, 0, t.bytes, packet, from);
    fill(&mut packet[from + t.bytes..]);
    t.bytes
}

// One that the section begun fills.
fn put_full(packet: &mut [u8], stream: Stream, bytes: &[u8])
    requires { (length packet.old ≡ 188) × (184 ≤ length bytes.now) }
    ensures { packet.new ≡ header_of stream.pid stream.counter false ++ take 184 bytes.now }
{
    packet[..4].copy_from_slice(&stream.header(false));
    copy(bytes, 0, 184, packet, 4);
}

// The next packet, and what it leaves. Most are filled by the section begun, and want no more than a header and a copy.
fn put_next<'a>(packet: &mut [u8], stream: Stream, a: Ahead<'a>) -> Ahead<'a>
    requires { (length packet.old ≡ 188) × (0 < length a.bytes.now) }
    ensures { Puts stream a.entry packet.new result }
{
    if 184 <= a.left {
        put_full(packet, stream, a.bytes);
        return a.open_next(184);
    }
    let bytes = put_packet(packet, stream, a);
    a.open_next(bytes)
}

// Packet after packet, until every byte of the sections is out.
pub fn put_all(first: Stream, all: Ahead, room: &mut [u8])
    requires { length (turns_from (ahead_of all)) * 188 ≤ length room.old }
    ensures { room.new
        ≡ over (flatten (packets_from first.pid first.counter (laid_out (turns_from (ahead_of all.entry)) all.entry.bytes.now)))
        room.old }
{
    let mut stream = first;
    let mut a = all;
    let mut at = 0;
    while !a.bytes.is_empty() {
        a = put_next(&mut room[at..at + 188], stream, a);
        stream = stream.next();
        at += 188;
    }
}
