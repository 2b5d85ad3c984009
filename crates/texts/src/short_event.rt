// 0x4D short event: a language, a name and a text.
ghost use Rattle.std.specs.Prelude.{◌≡◌};
ghost use Rattle.layout.specs.Refusal.{told};
ghost use Rattle.texts.specs.ShortEvent.{fields, short_event};

use layout::body::any;
use layout::texts::two_texts;
use layout::{Part, Refusal};
use wire::numbers::number24_at;

#[derive(Clone, Copy)]
pub struct ShortEvent {
    // Three characters, the first the highest byte.
    pub language_code: u32,
    pub event_name: Part,
    pub text: Part,
}

#[tactic(auto, unfolding(crate::specs::ShortEvent::fields))]
fn fields_of(b: &[u8]) -> Result<ShortEvent, Refusal>
    ensures { told result ≡ fields b.now }
{
    let texts = two_texts(b, 3)?;
    Ok(ShortEvent {
        language_code: number24_at(b, 0),
        event_name: texts.first,
        text: texts.second,
    })
}

#[tactic(auto, unfolding(crate::specs::ShortEvent::short_event))]
pub fn read(s: &[u8]) -> Result<ShortEvent, Refusal>
    ensures { told result ≡ short_event s.now }
{
    fields_of(any(s, 0x4D)?)
}
