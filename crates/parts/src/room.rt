// The sections of a room, in turn: they stand there end to end, as the collector leaves them in the out room.
ghost use Rattle.std.specs.Prelude.{◌≡◌, ◌+◌, ◌≤◌, length};
ghost use Rattle.parts.specs.Room.{section_at, next_section};

use crate::{Part, is_within};

#[derive(Clone, Copy)]
pub struct Section {
    pub whole: Part,
    // The sections behind it.
    pub rest: Part,
}

#[tactic(auto, using(crate::proofs::Fronts::section_laws))]
fn section_at(room: &[u8], rest: Part) -> Option<Section>
    requires { rest.start + rest.size ≤ length room.now }
    ensures { result ≡ section_at room.now rest }
{
    let start = rest.start;
    let size = rest.size;
    if size < 3 {
        return None;
    }
    let n = wire::length12_at(room, start + 1);
    if size - 3 < n {
        return None;
    }
    Some(Section {
        whole: Part { start, size: 3 + n },
        rest: Part {
            start: start + (3 + n),
            size: size - (3 + n),
        },
    })
}

// The first section of `rest`, which is the part of the room that sections fill, or what a section gave as those behind it.
#[tactic(auto, unfolding(crate::specs::Room::next_section))]
pub fn next_section(room: &[u8], rest: Part) -> Option<Section>
    ensures { result ≡ next_section room.now rest }
{
    if is_within(room, rest) {
        return section_at(room, rest);
    }
    None
}
