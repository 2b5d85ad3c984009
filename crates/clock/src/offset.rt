// An offset from UTC: four BCD digits, and a polarity beside them. "An offset is signed minutes (polarity 1 is behind
// UTC); 1 with 0000 is zero."
ghost use Rattle.std.specs.Prelude.{◌≡◌, ◌<◌};
ghost use Rattle.clock.specs.Fault.{told};
ghost use Rattle.clock.specs.Offset.{offset_at, offset_of, signed};

use super::Fault;
use super::field::two_digits;

fn signed_minutes(behind: bool, minutes: u16) -> i16
    requires { minutes < 32768 }
    ensures { result ≡ signed behind minutes }
{
    let n = minutes as i16;
    if behind { -n } else { n }
}

// An offset whose first byte stands at a place.
#[tactic(auto, unfolding(crate::specs::Offset::offset_at))]
pub fn read_at(at: u16, behind: bool, hour: u8, minute: u8) -> Result<i16, Fault>
    ensures { told result ≡ offset_at at behind hour minute }
{
    let at = at as usize;
    let hour = two_digits(at, hour, 24)?;
    let minute = two_digits(at + 1, minute, 60)?;
    Ok(signed_minutes(behind, hour as u16 * 60 + minute as u16))
}

// An offset by itself.
pub fn read(behind: bool, hour: u8, minute: u8) -> Result<i16, Fault>
    ensures { told result ≡ offset_of behind hour minute }
{
    read_at(0, behind, hour, minute)
}
