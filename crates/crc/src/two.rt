// A window of two words moves over the bytes: what leaves it at its front is added to the two words behind.
ghost use Rattle.std.specs.Prelude.{◌≡◌, [], ◌∷◌, ◌^◌, ◌≤◌, ◌<◌, length};
ghost use Rattle.crc.specs.Crc.{crc};
ghost use Rattle.moves.specs.Inner.Moves.{times64, times96, times128};
ghost use Rattle.crc.specs.Inner.Windows.{feed_words};

use crate::register::{quotient, times_poly};
use crate::words::{Pair, first_two, long};

// The word a leaves: what it adds to the two words behind it, `over` to the first and `under` to the second, stands for it.
#[tactic(auto, using(crate::proofs::Leaving::leaving), unfolding(moves::specs::Inner::Moves::lefts, moves::specs::Inner::Moves::rights))]
pub fn leave(a: u64, b: u64, c: u64) -> Pair
    ensures { feed_words (result.a ∷ result.b ∷ []) 0 ≡ feed_words (a ∷ b ∷ c ∷ []) 0 }
{
    let t = a ^ (a >> 1);
    let u = t ^ (t >> 8);
    let over = a ^ (a >> 16) ^ (a >> 23) ^ (a >> 41) ^ (u >> 47);
    let t = a ^ (a << 1);
    let u = t ^ (t << 8);
    let under = (u << 8) ^ (a << 23) ^ (a << 41) ^ (a << 48);
    Pair {
        a: b ^ over,
        b: c ^ under,
    }
}

// z times 0x490D678D, which is x ^ 64.
#[tactic(auto, using(moves::proofs::Shared::times64_shared), unfolding(moves::specs::Inner::Moves::lefts))]
fn times_64(z: u64) -> u64
    requires { z < 2 ^ 32 }
    ensures { result ≡ times64 z }
{
    let t = z ^ (z << 5);
    let u = z ^ (t << 3);
    u ^ (u << 10) ^ (u << 16) ^ (t << 2) ^ (t << 9) ^ (z << 27) ^ (z << 30)
}

// z times 0xF200AA66, which is x ^ 96.
#[tactic(auto, using(moves::proofs::Shared::times96_shared), unfolding(moves::specs::Inner::Moves::lefts))]
fn times_96(z: u64) -> u64
    requires { z < 2 ^ 32 }
    ensures { result ≡ times96 z }
{
    let t = z ^ (z << 1);
    let u = t ^ (t << 4);
    (u << 1) ^ (u << 9) ^ (u << 10) ^ (t << 28) ^ (t << 30) ^ (z << 25)
}

// z times 0xE8A45605, which is x ^ 128.
#[tactic(auto, using(moves::proofs::Shared::times128_shared), unfolding(moves::specs::Inner::Moves::lefts))]
fn times_128(z: u64) -> u64
    requires { z < 2 ^ 32 }
    ensures { result ≡ times128 z }
{
    let t = z ^ (z << 2);
    let u = t ^ (t << 6);
    t ^ (t << 14) ^ (u << 10) ^ (u << 21) ^ (z << 9) ^ (z << 30) ^ (z << 31)
}

// The last two words go into zero: each half word but the last is multiplied, and the sum is divided once.
pub fn last_two(d: u64, e: u64) -> u32
    ensures { result ≡ feed_words (d ∷ e ∷ []) 0 }
{
    let l = times_128(d >> 32) ^ times_96(d % 0x1_0000_0000) ^ times_64(e >> 32) ^ (e << 32);
    times_poly(quotient((l >> 32) as u32)) ^ (l % 0x1_0000_0000) as u32
}

// The CRC_32 of 9 bytes and more, by the window of two.
pub fn crc_by_two(s: &[u8]) -> u32
    requires { 9 ≤ length s.now }
    ensures { result ≡ crc s.now }
{
    let (mut v, at) = first_two(s);
    for i in (at..s.len()).step_by(8) {
        v = leave(v.a, v.b, long(s, i));
    }
    last_two(v.a, v.b)
}
