// 0x40 network name: the name, to the end.
ghost use Rattle.std.specs.Prelude.{◌≡◌};
ghost use Rattle.layout.specs.Refusal.{told};
ghost use Rattle.texts.specs.NetworkName.{network_name};

use layout::{Part, Refusal};

#[tactic(auto, unfolding(crate::specs::NetworkName::network_name))]
pub fn read(s: &[u8]) -> Result<Part, Refusal>
    ensures { told result ≡ network_name s.now }
{
    super::whole::read(s, 0x40)
}
