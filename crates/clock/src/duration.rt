// A duration: six BCD digits. "A duration's hours go to 99".
ghost use Rattle.std.specs.Prelude.{◌≡◌};
ghost use Rattle.clock.specs.Fault.{told};
ghost use Rattle.clock.specs.Duration.{duration_of};

use super::field::six_digits;
use super::{Fault, Hms};

#[tactic(auto, unfolding(crate::specs::Duration::duration_of))]
pub fn read(hour: u8, minute: u8, second: u8) -> Result<Hms, Fault>
    ensures { told result ≡ duration_of hour minute second }
{
    six_digits(0, 100, hour, minute, second)
}
