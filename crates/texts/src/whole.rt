// A body that is one text or any other bytes, to the end.
ghost use Rattle.std.specs.Prelude.{◌≡◌};
ghost use Rattle.layout.specs.Refusal.{told};
ghost use Rattle.texts.specs.Whole.{whole};

use layout::body::any;
use layout::{Part, Refusal};

#[tactic(auto, unfolding(crate::specs::Whole::whole))]
pub fn read(s: &[u8], tag: u8) -> Result<Part, Refusal>
    ensures { told result ≡ whole s.now tag }
{
    let body = any(s, tag)?;
    Ok(Part {
        start: 2,
        length: body.len(),
    })
}
