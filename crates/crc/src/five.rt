// A window of five words moves over the bytes. A word that leaves it at its front adds nothing to the next, and little
// to the four after that, since x^320 is a sum of four powers, of which the highest is x^175.
ghost use Rattle.std.specs.Prelude.{◌≡◌, [], ◌∷◌, ◌+◌, ◌-◌, ◌*◌, ◌/◌, ◌%◌, ◌^◌, ◌≤◌, ◌<◌, length};
ghost use Rattle.std.specs.Int.Bits.{bit_xor};
ghost use Rattle.crc.specs.Crc.{crc};
ghost use Rattle.moves.specs.Inner.Moves.{added};
ghost use Rattle.crc.specs.Inner.Windows.{feed_words, Window, FiveAt, Fronts};

use crate::two::{last_two, leave};
use crate::words::{first_two, long};

// The window, and the place in a sequence behind it.
#[derive(Clone, Copy)]
struct Five {
    a: u64,
    b: u64,
    c: u64,
    d: u64,
    e: u64,
    at: usize,
}

// Of two words in a row, the 64 bits from place k on: one instruction on x86-64.
fn across(a: u64, b: u64, k: u64) -> u64
    requires { (0 < k) × (k < 64) }
    ensures { result ≡ bit_xor (a * 2 ^ k % 2 ^ 64) (b / 2 ^ (64 - k)) }
{
    (a << k) ^ (b >> (64 - k))
}

// The word m with what the words p, q, r and t, which stand five, four, three and two before it, add to it.
#[tactic(auto, using(crate::proofs::Ahead::in_pairs))]
fn added(m: u64, p: u64, q: u64, r: u64, t: u64) -> u64
    ensures { result ≡ added m p q r t }
{
    m ^ across(p, q, 20) ^ across(q, r, 45) ^ across(r, t, 47) ^ (r << 9) ^ (t >> 55)
}

// The first five words of s.
fn first_five(s: &[u8]) -> Five
    requires { 33 ≤ length s.now }
    ensures { Window s.now result.a result.b result.c result.d result.e result.at }
{
    let (v, at) = first_two(s);
    Five {
        a: v.a,
        b: v.b,
        c: long(s, at),
        d: long(s, at + 8),
        e: long(s, at + 16),
        at: at + 24,
    }
}

// One word leaves, and the next of s comes.
fn step(s: &[u8], v: Five) -> Five
    requires { Window s.now v.a v.b v.c v.d v.e v.at × (v.at + 8 ≤ length s.now) }
    ensures { Window s.now result.a result.b result.c result.d result.e result.at × (result.at ≡ v.at + 8) }
{
    Five {
        a: v.b,
        b: added(v.c, 0, 0, 0, v.a),
        c: added(v.d, 0, 0, v.a, 0),
        d: added(v.e, 0, v.a, 0, 0),
        e: added(long(s, v.at), v.a, 0, 0, 0),
        at: v.at + 8,
    }
}

// The five words of s from i on.
fn five_at(s: &[u8], i: usize) -> Five
    requires { i + 40 ≤ length s.now }
    ensures { FiveAt s.now i result.a result.b result.c result.d result.e result.at }
{
    Five {
        a: long(s, i),
        b: long(s, i + 8),
        c: long(s, i + 16),
        d: long(s, i + 24),
        e: long(s, i + 32),
        at: i + 40,
    }
}

// The words of the window as they are when they stand at its front.
fn fronts(v: Five) -> Five
    ensures { Fronts v.a v.b v.c v.d v.e result.a result.b result.c result.d result.e }
{
    let c = added(v.c, 0, 0, 0, v.a);
    Five {
        a: v.a,
        b: v.b,
        c,
        d: added(v.d, 0, 0, v.a, v.b),
        e: added(v.e, 0, v.a, v.b, c),
        at: v.at,
    }
}

// Five words leave, and the next five of s come.
fn turn(s: &[u8], v: Five) -> Five
    requires { Window s.now v.a v.b v.c v.d v.e v.at × (v.at + 40 ≤ length s.now) }
    ensures { Window s.now result.a result.b result.c result.d result.e result.at × (result.at ≡ v.at + 40) }
{
    let f = fronts(v);
    let n = five_at(s, v.at);
    Five {
        a: added(n.a, f.a, f.b, f.c, f.d),
        b: added(n.b, f.b, f.c, f.d, f.e),
        c: added(n.c, f.c, f.d, f.e, 0),
        d: added(n.d, f.d, f.e, 0, 0),
        e: added(n.e, f.e, 0, 0, 0),
        at: n.at,
    }
}

// The window moves on to the end of s, by fives as far as there are five words more, and then word by word.
fn to_end(s: &[u8], v: Five) -> Five
    requires { Window s.now v.a v.b v.c v.d v.e v.at }
    ensures { feed_words (result.a ∷ result.b ∷ result.c ∷ result.d ∷ result.e ∷ []) 0 ≡ crc s.now }
{
    let mut w = v;
    while w.at + 40 <= s.len() {
        w = turn(s, w);
    }
    while w.at < s.len() {
        w = step(s, w);
    }
    w
}

// The CRC_32 of 33 bytes and more, by the window of five. The last five words go into zero: three of them leave in the
// manner of the window of two.
pub fn crc_by_five(s: &[u8]) -> u32
    requires { 33 ≤ length s.now }
    ensures { result ≡ crc s.now }
{
    let v = to_end(s, first_five(s));
    let p = leave(v.a, v.b, v.c);
    let q = leave(p.a, p.b, v.d);
    let r = leave(q.a, q.b, v.e);
    last_two(r.a, r.b)
}
