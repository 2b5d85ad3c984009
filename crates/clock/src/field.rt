// The fields of a clock: two BCD digits in a byte, below a limit. The first argument is the place of the first byte.
ghost use Rattle.std.specs.Prelude.{◌≡◌, ◌<◌, ◌^◌};
ghost use Rattle.clock.specs.Fault.{told};
ghost use Rattle.clock.specs.Field.{field, hms};

use super::{Fault, Hms};
use wire::digits::{BadDigit, bcd};

#[tactic(auto, unfolding(crate::specs::Field::field))]
pub fn two_digits(at: usize, b: u8, limit: u8) -> Result<u8, Fault>
    ensures { told result ≡ field at b limit }
{
    let n = bcd(b as u32, 2).map_err(|BadDigit(digit)| Fault::BadDigit { place: at, digit })?;
    if n < limit as u32 {
        Ok(n as u8)
    } else {
        Err(Fault::OutOfRange { place: at })
    }
}

#[tactic(auto, unfolding(crate::specs::Field::hms))]
pub fn six_digits(at: usize, limit: u8, hour: u8, minute: u8, second: u8) -> Result<Hms, Fault>
    requires { at < 2 ^ 32 }
    ensures { told result ≡ hms at limit hour minute second }
{
    let hour = two_digits(at, hour, limit)?;
    let minute = two_digits(at + 1, minute, 60)?;
    let second = two_digits(at + 2, second, 60)?;
    Ok(Hms {
        hour,
        minute,
        second,
    })
}
