// What the layouts of descriptors share: the tag and the length in front, bodies of a fixed size, lists of items of one
// size, texts, BCD fields.
#![tactic(auto)]

ghost use Rattle.std.specs.Prelude.{◌≡◌};
ghost use Rattle.layout.specs.Refusal.{bytes_of};
ghost use Rattle.layout.specs.declared.Refusal.TheVariants.{Field};

use clock::Fault;
use wire::parts::part;

pub mod body;
pub mod digits;
pub mod items;
pub mod texts;

// Why a descriptor is not read.
#[derive(Clone, Copy, PartialEq, Eq, Debug)]
pub enum Refusal {
    // 61: no byte, or another tag.
    WrongTag,
    // 62: the length byte is missing or is not the number of bytes after it, or the body does not fit the layout exactly.
    DoesNotFit,
    // 66: the index is past the end.
    PastEnd,
    // 63 to 65: a field that is wrong.
    Field(Fault),
}

impl From<Fault> for Refusal {
    ghost from_gives = { λ f why. why ≡ Field f };

    fn from(f: Fault) -> Refusal {
        Refusal::Field(f)
    }
}

// A part of a descriptor's bytes, its start counted from the tag as 0.
#[derive(Clone, Copy)]
pub struct Part {
    pub start: usize,
    pub length: usize,
}

// The part itself, as much of it as there is.
pub fn bytes_of(s: &[u8], p: Part) -> &[u8]
    ensures { result.now ≡ bytes_of s.now p }
{
    part(s, p.start, p.length)
}
