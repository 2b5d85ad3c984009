// 0x44 cable delivery system.
ghost use Rattle.std.specs.Prelude.{◌≡◌};
ghost use Rattle.layout.specs.Refusal.{told};
ghost use Rattle.delivery.specs.Cable.{hertz, fields, cable};

use layout::Refusal;
use layout::body::sized;
use layout::digits::digits_at;
use wire::numbers::{bits_at, byte_at};

// Steps of 100 Hz.
#[derive(Clone, Copy)]
pub struct CableFrequency(pub u32);

impl CableFrequency {
    pub fn hertz(self) -> u64
        ensures { result ≡ hertz self }
    {
        100 * self.0 as u64
    }
}

#[derive(Clone, Copy)]
pub struct Cable {
    pub frequency: CableFrequency,
    pub fec_outer: u8,
    pub modulation: u8,
    // In steps of 100 symbols a second.
    pub symbol_rate: u32,
    pub fec_inner: u8,
}

#[tactic(auto, unfolding(crate::specs::Cable::fields))]
fn fields_of(b: &[u8]) -> Result<Cable, Refusal>
    ensures { told result ≡ fields b.now }
{
    let frequency = digits_at(b, 0, 8)?;
    let symbol_rate = digits_at(b, 7, 7)?;
    Ok(Cable {
        frequency: CableFrequency(frequency),
        fec_outer: bits_at(b, 5, 3, 0),
        modulation: byte_at(b, 6),
        symbol_rate,
        fec_inner: bits_at(b, 10, 3, 0),
    })
}

#[tactic(auto, unfolding(crate::specs::Cable::cable))]
pub fn read(s: &[u8]) -> Result<Cable, Refusal>
    ensures { told result ≡ cable s.now }
{
    fields_of(sized(s, 0x44, 11)?)
}
