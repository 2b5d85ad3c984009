// A time: "MJD 16 bits, six BCD digits".
ghost use Rattle.std.specs.Prelude.{◌≡◌};
ghost use Rattle.clock.specs.Fault.{told};
ghost use Rattle.clock.specs.Time.{time_at, time_of};

use super::field::six_digits;
use super::{Fault, Hms};

#[derive(Clone, Copy)]
pub struct Time {
    // The day, from 15,079 on: the first of March 1900.
    pub mjd: u16,
    // The hour is at most 23.
    pub clock: Hms,
}

// A time that was read; forty ones are none.
pub type Moment = Option<Time>;

// A time whose first byte stands at a place.
#[tactic(auto, unfolding(crate::specs::Time::time_at))]
pub fn read_at(at: u16, mjd: u16, hour: u8, minute: u8, second: u8) -> Result<Moment, Fault>
    ensures { told result ≡ time_at at mjd hour minute second }
{
    let at = at as usize;
    if ((mjd as u64 * 256 + hour as u64) * 256 + minute as u64) * 256 + second as u64
        == 0xFF_FFFF_FFFF
    {
        return Ok(None);
    }
    if mjd < 15079 {
        return Err(Fault::TooEarly { place: at });
    }
    let clock = six_digits(at + 2, 24, hour, minute, second)?;
    Ok(Some(Time { mjd, clock }))
}

// A time by itself.
pub fn read(mjd: u16, hour: u8, minute: u8, second: u8) -> Result<Moment, Fault>
    ensures { told result ≡ time_of mjd hour minute second }
{
    read_at(0, mjd, hour, minute, second)
}
