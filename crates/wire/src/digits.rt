// Numbers in BCD: four bits for each decimal digit, the highest first.
ghost use Rattle.std.specs.Prelude.{◌≡◌};
ghost use Rattle.wire.specs.Digits.{bcd_of, told};

// The place of the first digit above 9, the highest of the digits as 0.
#[derive(Clone, Copy, PartialEq, Eq, Debug)]
pub struct BadDigit(pub u32);

// The number that the n low digits of v are. What stands above the eighth digit is 0, as v has no more.
pub fn bcd(v: u32, n: u32) -> Result<u32, BadDigit>
    ensures { told result ≡ bcd_of v n }
{
    let mut a: u32 = 0;
    for k in (0..n.min(8)).rev() {
        let d = (v >> (4 * k)) % 16;
        if 9 < d {
            return Err(BadDigit(n - 1 - k));
        }
        a = a * 10 + d;
    }
    Ok(a)
}
