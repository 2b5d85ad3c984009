// Numbers in BCD: four bits for each decimal digit, the highest first.
ghost use Rattle.std.specs.Prelude.{◌≡◌};
ghost use Rattle.wire.specs.Digits.{bcd_show};

// The eight low decimal digits of a number. A digit is what its number of tens leaves, so that the digits are the number and
// six sixteenths of each place's tens: all tens are divided out at once, and none waits for another.
pub fn to_bcd(a: u32) -> u32
    ensures { result ≡ bcd_show 8 a }
{
    let a = a as u64;
    let tens = a / 10
        + 0x10 * (a / 100)
        + 0x100 * (a / 1_000)
        + 0x1000 * (a / 10_000)
        + 0x1_0000 * (a / 100_000)
        + 0x10_0000 * (a / 1_000_000)
        + 0x100_0000 * (a / 10_000_000);
    (a + 6 * tens - 0xA000_0000 * (a / 100_000_000)) as u32
}
