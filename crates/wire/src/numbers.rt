// Numbers of several bytes, the highest first.
ghost use Rattle.std.specs.Prelude.{◌≡◌, [], ◌∷◌, get_or};
ghost use Rattle.wire.specs.Number.{number, number_at, bits_at};

use super::parts::after;

// The byte at place i of s, or 0 where s has none.
pub fn byte_at(s: &[u8], i: usize) -> u8
    ensures { result ≡ get_or s.now i 0 }
{
    if i < s.len() { s[i] } else { 0 }
}

fn number16(a: u8, b: u8) -> u16
    ensures { result ≡ number (a ∷ b ∷ []) }
{
    a as u16 * 256 + b as u16
}

fn number24(a: u8, b: u8, c: u8) -> u32
    ensures { result ≡ number (a ∷ b ∷ c ∷ []) }
{
    number16(a, b) as u32 * 256 + c as u32
}

fn number32(a: u8, b: u8, c: u8, d: u8) -> u32
    ensures { result ≡ number (a ∷ b ∷ c ∷ d ∷ []) }
{
    number24(a, b, c) * 256 + d as u32
}

#[tactic(auto, using(crate::proofs::NumberLaws::read_after))]
pub fn number16_at(s: &[u8], i: usize) -> u16
    ensures { result ≡ number_at 2 s.now i }
{
    let f = after(s, i);
    number16(byte_at(f, 0), byte_at(f, 1))
}

#[tactic(auto, using(crate::proofs::NumberLaws::read_after))]
pub fn number24_at(s: &[u8], i: usize) -> u32
    ensures { result ≡ number_at 3 s.now i }
{
    let f = after(s, i);
    number24(byte_at(f, 0), byte_at(f, 1), byte_at(f, 2))
}

#[tactic(auto, using(crate::proofs::NumberLaws::read_after))]
pub fn number32_at(s: &[u8], i: usize) -> u32
    ensures { result ≡ number_at 4 s.now i }
{
    let f = after(s, i);
    number32(byte_at(f, 0), byte_at(f, 1), byte_at(f, 2), byte_at(f, 3))
}

// The bits from a high one down to a low one of the byte at place i, b7 being the highest. Above b7 there are none.
#[tactic(auto, using(crate::proofs::SomeBits::some_bits), unfolding(crate::specs::Number::bits_at))]
pub fn bits_at(s: &[u8], i: usize, high: u32, low: u32) -> u8
    ensures { result ≡ bits_at s.now i high low }
{
    let b = byte_at(s, i);
    if 7 < low {
        return 0;
    }
    if 7 < high {
        return b >> low;
    }
    if high < low {
        return 0;
    }
    ((b as u32 >> low) % (1 << (high + 1 - low))) as u8
}
