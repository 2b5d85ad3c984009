// Bytes as numbers: what every layer above reads off the wire.
#![tactic(auto)]

ghost use Rattle.std.specs.Prelude.{◌≡◌, ◌-◌};
ghost use Rattle.wire.specs.Bytes.{Below, len12, len12_at};

pub mod digits;
pub mod numbers;
pub mod parts;

// A byte as a number that can be an index or a length.
pub fn wide(b: u8) -> usize
    ensures { Below 256 b result }
{
    b as usize
}

// "A loop is a 12-bit length in the low bits of two bytes": the length that the two bytes give. section_length is written the same way.
pub fn length12(high: u8, low: u8) -> usize
    ensures { Below 4096 (len12 high low) result }
{
    wide(high) % 16 * 256 + wide(low)
}

// The 12-bit length in the two bytes at a place.
pub fn length12_at(s: &[u8], i: usize) -> usize
    ensures { Below 4096 (len12_at s.now i) result }
{
    if i < s.len() {
        length12(s[i], numbers::byte_at(s, i + 1))
    } else {
        0
    }
}

// The difference, or 0 where there is less than is to be taken away.
pub fn less(from: usize, taken: usize) -> usize
    ensures { result ≡ from - taken }
{
    from.saturating_sub(taken)
}
