// 0x42 stuffing: bytes of any value, to the end.
ghost use Rattle.std.specs.Prelude.{◌≡◌};
ghost use Rattle.layout.specs.Refusal.{told};
ghost use Rattle.texts.specs.Stuffing.{stuffing};

use layout::{Part, Refusal};

#[tactic(auto, unfolding(crate::specs::Stuffing::stuffing))]
pub fn read(s: &[u8]) -> Result<Part, Refusal>
    ensures { told result ≡ stuffing s.now }
{
    super::whole::read(s, 0x42)
}
