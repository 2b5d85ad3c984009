// Numbers in BCD at a place of a body.
ghost use Rattle.std.specs.Prelude.{◌≡◌};
ghost use Rattle.clock.specs.Fault.{told};
ghost use Rattle.layout.specs.Field.{digits_at};

use clock::Fault;
use wire::digits::{BadDigit, bcd};
use wire::numbers::number32_at;

// The number whose first of n digits is the high half of the byte at a place. At most eight digits are there,
// so that the digit told is in half bytes from the place for every n.
#[tactic(auto, unfolding(crate::specs::Field::digits_at))]
pub fn digits_at(b: &[u8], at: usize, n: u32) -> Result<u32, Fault>
    ensures { told result ≡ digits_at b.now at n }
{
    // How many of eight digits do not belong to the first n.
    let left = 8u32.saturating_sub(n);
    let v = number32_at(b, at) as u64 >> (4 * left);
    bcd(v as u32, 8 - left).map_err(|BadDigit(digit)| Fault::BadDigit { place: at, digit })
}
