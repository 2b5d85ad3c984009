// A packet's payload: the stretch before the pointer's target, and the sections from there on.
ghost use Rattle.std.specs.Prelude.{◌≡◌, ◌<◌, length, take, drop};
ghost use Rattle.collector.specs.Rules.{holding, payload, plain};
ghost use Rattle.collector.specs.Judged.{by_judge};
ghost use Rattle.collector.specs.Inner.Stretch.{Ends};
ghost use Rattle.collector.specs.Inner.Payload.{Fit, front_rest, front_bytes};

use crate::stretch;
use crate::stretch::Gain;
use packet::Payload;

// The stretch that goes to the section in hand: the first so many bytes of what is given with them. "one pointer byte p. The
// next p bytes go as above"; without the start flag, all of the payload.
fn front_of(payload: &[u8], start: bool) -> (&[u8], usize)
    requires { 0 < length payload.now }
    ensures rest { result.0.now ≡ front_rest start payload.now }
    ensures bytes { result.1 ≡ front_bytes start payload.now }
{
    if start {
        return (&payload[1..], wire::wide(payload[0]));
    }
    (payload, payload.len())
}

// The payload is packet[load.from..], and n bytes are in hand. "Start flag: one pointer byte p. The next p bytes go as above;
// a section still unfinished after them is broken off. Then sections follow end to end". The pointer byte itself is not
// in the answer; was is the number of the section rejected last before this packet.
// go_on, sections and carry are each called at one place alone, so that the compiler makes them part of their caller.
pub fn carry(
    hold: &mut [u8],
    n: usize,
    packet: &[u8],
    load: Payload,
    out: &mut [u8],
    was: u32,
) -> Gain
    requires { Fit n hold.old out.old packet.now load.from load.start }
    ensures { Ends (payload by_judge plain load.start (holding (take n hold.old)) (drop load.from packet.now)) was
        hold.old out.old 0 hold.new out.new result }
{
    let (rest, m) = front_of(&packet[load.from..], load.start);
    let a = stretch::go_on(hold, n, rest, m, out, !load.start, was);
    if load.start {
        let at = a.bytes;
        let b = stretch::sections(&rest[m..], hold, out, at, a.rejection);
        return stretch::both(a, b);
    }
    a
}
