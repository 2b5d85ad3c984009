// Sections in a stretch of payload. Whole runs of bytes are looked at and copied at once: a section's header says where it ends.
ghost use Rattle.std.specs.Prelude.{◌≡◌, ◌+◌, ◌-◌, ◌<◌, ◌≤◌, [], ◌++◌, length, take, slice_index};
ghost use Rattle.wire.specs.Bytes.{len12};
ghost use Rattle.wire.specs.Sections.{Unfinished};
ghost use Rattle.verdict.specs.Verdict.{number_of, told};
ghost use Rattle.collector.specs.Rules.{holding, joined, goesOn, sections_in, plain};
ghost use Rattle.collector.specs.Judged.{by_judge};
ghost use Rattle.collector.specs.Inner.Stretch.{LookSays, sized_as, nothing, Few, with_section, Ends, Small, both_of};

use crate::bytes;
use crate::settling::{settle, settle_held};
use verdict::{Verdict, number};

// What stands first in a run of bytes: a section that goes on past them, one that declares too much, or a whole one, of so many bytes.
#[derive(Clone, Copy)]
pub enum Look {
    Going,
    Over,
    Whole(usize),
}

// What came of a stretch: the bytes in hand after it; of the sections that came whole, the accepted ones' number and bytes,
// the rejected ones' bytes, and the number of the section rejected last, now or before; and the other bytes by how the
// stretch's rest went.
#[derive(Clone, Copy)]
pub struct Gain {
    pub in_hand: usize,
    pub sections: usize,
    pub bytes: usize,
    pub rejected: usize,
    pub rejection: u32,
    pub breaking: usize,
    pub filling: usize,
    pub skipping: usize,
}

// Nothing yet; was is the number of the section rejected last before.
fn none_yet(was: u32) -> Gain
    ensures { result ≡ nothing was }
{
    Gain {
        in_hand: 0,
        sections: 0,
        bytes: 0,
        rejected: 0,
        rejection: was,
        breaking: 0,
        filling: 0,
        skipping: 0,
    }
}

// One whole section of t bytes more, which is accepted or not.
fn with_section(g: Gain, t: usize, verdict: Verdict) -> Gain
    requires { Few g t }
    ensures { result ≡ with_section g t (number_of (told verdict)) }
{
    if verdict.is_ok() {
        return Gain {
            sections: g.sections + 1,
            bytes: g.bytes + t,
            ..g
        };
    }
    Gain {
        rejected: g.rejected + t,
        rejection: number(verdict) as u32,
        ..g
    }
}

// One stretch after another, which began with the number that the first left.
pub fn both(a: Gain, b: Gain) -> Gain
    requires { Small a × Small b }
    ensures { result ≡ both_of a b }
{
    Gain {
        in_hand: b.in_hand,
        sections: a.sections + b.sections,
        bytes: a.bytes + b.bytes,
        rejected: a.rejected + b.rejected,
        rejection: b.rejection,
        breaking: a.breaking + b.breaking,
        filling: a.filling + b.filling,
        skipping: a.skipping + b.skipping,
    }
}

// Byte i of those in hand with the packet's after them.
#[tactic(auto, using(crate::proofs::Headers::in_second))]
fn byte_of(held: &[u8], part: &[u8], i: usize) -> u8
    requires { i < length held.now + length part.now }
    ensures { result ≡ slice_index (held.now ++ part.now) i }
{
    if i < held.len() {
        held[i]
    } else {
        part[i - held.len()]
    }
}

// The bytes of a section, by its second and third.
pub fn total_of(high: u8, low: u8) -> usize
    ensures { result ≡ 3 + len12 high low }
{
    3 + wire::length12(high, low)
}

// A section of which so many bytes are there, three at least, and which has total in all.
fn sized(total: usize, size: usize) -> Look
    ensures { result ≡ sized_as total size }
{
    if 4096 < total {
        return Look::Over;
    }
    if size < total {
        return Look::Going;
    }
    Look::Whole(total)
}

// The section that the bytes in hand with those of the packet after them begin with. No length is trusted before three
// bytes are in. Mostly these are in hand, and then no byte is looked for in two places.
#[tactic(auto, using(crate::proofs::Headers::says_short, crate::proofs::Headers::says_held, crate::proofs::Headers::says_sized))]
fn looked(held: &[u8], part: &[u8]) -> Look
    requires { (length held.now < 4096) × (length part.now < 4096) }
    ensures { LookSays (held.now ++ part.now) result }
{
    let size = held.len() + part.len();
    if size < 3 {
        return Look::Going;
    }
    if 2 < held.len() {
        return sized(total_of(held[1], held[2]), size);
    }
    let high = byte_of(held, part, 1);
    let low = byte_of(held, part, 2);
    sized(total_of(high, low), size)
}

// "Then sections follow end to end", in part; those that are accepted go to out[at..].
pub fn sections(part: &[u8], hold: &mut [u8], out: &mut [u8], at: usize, was: u32) -> Gain
    requires { (length part.now ≤ 188) × (188 ≤ length hold.old)
        × (at + length part.now ≤ length out.old) }
    ensures { Ends (sections_in by_judge plain (holding []) part.now) was
        hold.old out.old at hold.new out.new result }
{
    let mut rest = part;
    let mut g = none_yet(was);
    while 0 < rest.len() {
        if rest[0] == 255 {
            g.filling = rest.len();
            return g;
        }
        match looked(&[], rest) {
            Look::Going => {
                bytes::lay(rest, hold, 0);
                g.in_hand = rest.len();
                return g;
            }
            Look::Over => {
                g.breaking = rest.len();
                return g;
            }
            Look::Whole(t) => {
                let verdict = settle(&rest[..t], out, at + g.bytes);
                g = with_section(g, t, verdict);
                rest = &rest[t..];
            }
        }
    }
    g
}

// "bytes go to the section in hand; after its end, filler"; with nothing in hand there is no section for them. They are the
// first m of rest, which is the packet from them on; n are in hand, and keep says whether a section that is still unfinished
// stays in hand.
pub fn go_on(
    hold: &mut [u8],
    n: usize,
    rest: &[u8],
    m: usize,
    out: &mut [u8],
    keep: bool,
    was: u32,
) -> Gain
    requires n_bound { (n < 4096) × (4096 ≤ length hold.old) × (m ≤ length rest.now)
        × (length rest.now ≤ 188) × (4280 ≤ length out.old) }
    requires unfinished { Unfinished (take n hold.old) }
    ensures { Ends (joined keep (goesOn by_judge plain (holding (take n hold.old)) (take m rest.now)))
        was hold.old out.old 0 hold.new out.new result }
{
    let mut r = none_yet(was);
    if n == 0 {
        r.skipping = m;
        return r;
    }
    match looked(&hold[..n], &rest[..m]) {
        Look::Going => {
            if keep {
                bytes::lay_mostly::<184>(&rest[..m], hold, n);
                r.in_hand = n + m;
                return r;
            }
            r.breaking = n + m;
            r
        }
        Look::Over => {
            r.breaking = n + m;
            r
        }
        Look::Whole(t) => {
            let verdict = settle_held(hold, n, rest, t - n, out);
            r = with_section(r, t, verdict);
            r.filling = m - (t - n);
            r
        }
    }
}
