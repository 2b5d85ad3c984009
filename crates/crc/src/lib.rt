// CRC_32 of ISO/IEC 13818-1, by moves and sums (xor) of words: no table, since a constant array is built anew on the
// stack at each call, and no buffer. tests/identities.py checks each line below that is set in by four places.
//
// THE REMAINDER. The bits of a sequence, the first the highest, are the coefficients of a polynomial M in x, and sums
// have no carries. A move up by k places is a product with x^k. With a register preset to zero, CRC_32 is what M x^32
// leaves over
//     P = x^32 + x^26 + x^23 + x^22 + x^16 + x^12 + x^11 + x^10 + x^8 + x^7 + x^5 + x^4 + x^2 + x + 1 = 0x104C11DB7
// and M may be replaced by all that differs from it by a multiple of P. All that follows is modulo P; `x^64 over P` is
// the quotient. specs/Crc.antt states the register a bit at a time; one law, `linear` in proofs/Linear.antt, ties it to
// this: bits and register may be split into sums.
//
// FIVE WORDS (five.rt). A power of x that is a sum of few lower ones lets bits leave at the front of M. The best is
//     x^300 = x^155 + x^117 + x^89 + 1
// for no other power below x^515 is a sum of four or fewer powers with 1 among them. Words of 64 bits want a multiple
// of 64:
//     x^320 = x^175 + x^137 + x^109 + x^20
// So a word a in front of five others may leave, if it is added to them moved up by 175, 137, 109 and 20 places:
//     175 = 2 * 64 + 47        a << 47 to the third word behind it, a >> 17 to the second
//     137 = 2 * 64 + 9         a << 9 to the third, a >> 55 to the second
//     109 = 1 * 64 + 45        a << 45 to the fourth, a >> 19 to the third
//     20 = 0 * 64 + 20         a << 20 to the fifth, a >> 44 to the fourth
// The next word gets nothing, so that two words can leave at once without waiting for each other. A word m takes all
// that it gets in one sum, `added`, from the words five, four, three and two before it; of two words in a row the parts
// moved up by k and down by 64 - k stand side by side (`across`), which is one instruction of the processor. One of the
// four pairs is left as two moves, which the processor makes beside the others.
//
// TWO WORDS (two.rt). Where there are fewer words, or the last five are left, a word leaves by
//     x^128 = x^64 + x^48 + x^41 + x^23 + x^17 + x^16 + x^9 + x^8
// `over` is what it adds to the next word, `under` what it adds to the one after. Four of the moves are two, made in
// turn:
//     x^17 + x^16 + x^9 + x^8 = x^8 (1 + x) (1 + x^8)
// The last two words d and e stand for (d x^64 + e) x^32. In half words, d = d1 x^32 + d0 and e = e1 x^32 + e0, that is
// d1 x^128 + d0 x^96 + e1 x^64 + e0 x^32. Each of the first three powers is a number of 32 bits, and a product of two
// such numbers has room in 64 bits. Moves are shared by way of t and u:
//     x^64 = 0x490D678D = (1 + x^10 + x^16) u + (x^2 + x^9) t + x^27 + x^30 where t = 1 + x^5, u = 1 + x^3 t
//     x^96 = 0xF200AA66 = (x + x^9 + x^10) u + (x^28 + x^30) t + x^25 where t = 1 + x, u = (1 + x^4) t
//     x^128 = 0xE8A45605 = (1 + x^14) t + (x^10 + x^21) u + x^9 + x^30 + x^31 where t = 1 + x^2, u = (1 + x^6) t
// The sum of 64 bits is z x^32 + w with 32 bits each; w stays, and z x^32 is divided by P.
//
// ONE DIVISION (register.rt). P goes into z x^32 as often as the moves of z down by k say, for each y^k here (y is 1 / x):
//     x^64 over P = x^32 (1 + y^6 + y^9 + y^10 + y^12 + y^16 + y^24 + y^25 + y^26 + y^28 + y^29 + y^30 + y^31) + 1
//     x^64 over P = x^32 (1 + y^9 + y^26 + (y^6 + y^24 + y^25) u) to y^31 where t = 1 + y^4, u = (1 + y^6) t
// and what is left over is the low half of the quotient q times P, since z x^32 itself has no low half:
//     0x04C11DB7 = (1 + x + x^2) u + x^22 t + x^16 + x^23 where t = 1 + x^4, u = (1 + x^6) t
//
// THE PRESET. A register r in front of n bits, 32 or more, is r x^(n - 32) added to them: the preset is 32 ones on the
// first four bytes. The words must end where the sequence ends. So its first 1 to 8 bytes are a word of their own, with
// zeros in front of them, which change nothing; those of the ones that it has no room for fall to the word behind it
// (`first_two` in words.rt).
#![tactic(auto)]

ghost use Rattle.std.specs.Prelude.{◌≡◌};
ghost use Rattle.crc.specs.Crc.{crc};

mod five;
mod register;
mod two;
mod words;

// "CRC_32: polynomial 0x04C11DB7, register preset to ones, high bit first": the register after all bytes of s.
#[tactic(auto, unfolding(crate::specs::Crc::crc))]
pub fn crc32(s: &[u8]) -> u32
    ensures { result ≡ crc s.now }
{
    if s.len() < 9 {
        register::feed_bytes(0xffff_ffff, s)
    } else if s.len() < 33 {
        two::crc_by_two(s)
    } else {
        five::crc_by_five(s)
    }
}
