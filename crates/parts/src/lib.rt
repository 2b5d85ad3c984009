// The parts of a section, each by its place and its size, so that a caller adds up no lengths: the loops, the entries in turn, the
// descriptors in turn; and the sections that stand end to end in a room.
#![tactic(auto)]

ghost use Rattle.std.specs.Prelude.{◌≡◌};
ghost use Rattle.parts.specs.Parts.{no_part, within};

pub mod descriptors;
pub mod entries;
pub mod names;
pub mod opening;
pub mod room;

// A part of bytes, its start counted from the first byte as 0.
#[derive(Clone, Copy)]
pub struct Part {
    pub start: usize,
    pub size: usize,
}

pub fn no_part() -> Part
    ensures { result ≡ no_part }
{
    Part { start: 0, size: 0 }
}

// Whether the part lies in the bytes.
#[tactic(auto, unfolding(crate::specs::Parts::within))]
pub fn is_within(bytes: &[u8], part: Part) -> bool
    ensures { result ≡ within bytes.now part }
{
    part.start <= bytes.len() && part.size <= bytes.len() - part.start
}
