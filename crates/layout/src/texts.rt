// Two texts, each after the byte that gives its length.
ghost use Rattle.std.specs.Prelude.{◌≡◌};
ghost use Rattle.layout.specs.Refusal.{told};
ghost use Rattle.layout.specs.Texts.{two_texts};

use super::{Part, Refusal};
use wire::numbers::byte_at;
use wire::wide;

#[derive(Clone, Copy)]
pub struct TwoTexts {
    pub first: Part,
    pub second: Part,
}

// A body of h bytes and two texts, refused where the lengths do not fill it.
#[tactic(auto, unfolding(crate::specs::Texts::two_texts))]
pub fn two_texts(b: &[u8], h: u8) -> Result<TwoTexts, Refusal>
    ensures { told result ≡ two_texts b.now h }
{
    let h = wide(h);
    let a = wide(byte_at(b, h));
    let n = wide(byte_at(b, h + 1 + a));
    if b.len() == h + 2 + a + n {
        Ok(TwoTexts {
            first: Part {
                start: 2 + (h + 1),
                length: a,
            },
            second: Part {
                start: 2 + (h + 2 + a),
                length: n,
            },
        })
    } else {
        Err(Refusal::DoesNotFit)
    }
}
