// The register, a byte at a time: what leaves it at its top is divided by the polynomial P, and the remainder is added.
ghost use Rattle.std.specs.Prelude.{◌≡◌};
ghost use Rattle.crc.specs.Crc.{feed_bytes};
ghost use Rattle.moves.specs.Inner.Moves.{times_poly, quotient_of};

// The low half of q times P. The exponents of P, x ^ 32 left out, are 0, 4, 6, 10 moved up by 0, 1 and 2; 22 and 26;
// 16; and 23.
#[tactic(auto, using(moves::proofs::Shared::times_shared), unfolding(moves::specs::Inner::Moves::lefts))]
pub fn times_poly(q: u32) -> u32
    ensures { result ≡ times_poly q }
{
    let t = q ^ (q << 4);
    let u = t ^ (t << 6);
    u ^ (u << 1) ^ (u << 2) ^ (t << 22) ^ (q << 16) ^ (q << 23)
}

// How often P goes into z times x ^ 32.
#[tactic(auto, using(moves::proofs::Shared::quotient_shared), unfolding(moves::specs::Inner::Moves::rights))]
pub fn quotient(z: u32) -> u32
    ensures { result ≡ quotient_of z }
{
    let t = z ^ (z >> 4);
    let u = t ^ (t >> 6);
    z ^ (z >> 9) ^ (z >> 26) ^ (u >> 6) ^ (u >> 24) ^ (u >> 25)
}

// The bytes of s, one at a time: for so few of them that no window is worth its end. Of a quotient of eight bits only the
// move by 6 is left.
pub fn feed_bytes(r: u32, s: &[u8]) -> u32
    ensures { result ≡ feed_bytes s.now r }
{
    let mut v = r;
    for b in s {
        let c = *b as u32 ^ (v >> 24);
        v = times_poly(c ^ (c >> 6)) ^ (v << 8);
    }
    v
}
