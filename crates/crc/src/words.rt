// Bytes as numbers, and the front of a sequence as two words with the preset in them.
ghost use Rattle.std.specs.Prelude.{◌≡◌, [], ◌∷◌, ◌+◌, ◌≤◌, length};
ghost use Rattle.crc.specs.Inner.Windows.{long_at, Ahead};

// The preset, 32 ones, as it stands in front of the first eight bytes.
const PRESET: u64 = 0xffff_ffff_0000_0000;

// The eight bytes from i on as a number, the first the highest.
pub fn long(s: &[u8], i: usize) -> u64
    requires { i + 8 ≤ length s.now }
    ensures { result ≡ long_at s.now i }
{
    u64::from_be_bytes([
        s[i],
        s[i + 1],
        s[i + 2],
        s[i + 3],
        s[i + 4],
        s[i + 5],
        s[i + 6],
        s[i + 7],
    ])
}

// Two words.
#[derive(Clone, Copy)]
pub struct Pair {
    pub a: u64,
    pub b: u64,
}

// The first 1 to 8 bytes are a word of their own, so that whole words follow to the end. Ones of the preset that it has
// no room for fall to the next word. Beside the two words the place behind them.
pub fn first_two(s: &[u8]) -> (Pair, usize)
    requires { 9 ≤ length s.now }
    ensures { (Ahead s.now (result.0.a ∷ result.0.b ∷ []) result.1) × (result.1 ≤ 16) }
{
    let j = (s.len() - 1) % 8;
    let first = Pair {
        a: (long(s, 0) ^ PRESET) >> (56 - 8 * j),
        b: long(s, j + 1) ^ ((PRESET << (8 * j)) << 8),
    };
    (first, j + 9)
}
