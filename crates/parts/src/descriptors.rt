// The descriptors of a loop, in turn.
ghost use Rattle.std.specs.Prelude.{◌≡◌, ◌+◌, ◌≤◌, length};
ghost use Rattle.parts.specs.Descriptors.{descriptor_at, next_descriptor};

use crate::{Part, is_within};

#[derive(Clone, Copy)]
pub struct Descriptor {
    pub tag: u8,
    // From its tag on.
    pub whole: Part,
    pub body: Part,
    // The descriptors behind it.
    pub rest: Part,
}

#[tactic(auto, using(crate::proofs::Fronts::descriptor_laws))]
fn descriptor_at(section: &[u8], rest: Part) -> Option<Descriptor>
    requires { rest.start + rest.size ≤ length section.now }
    ensures { result ≡ descriptor_at section.now rest }
{
    let start = rest.start;
    let size = rest.size;
    if size < 2 {
        return None;
    }
    let n = wire::wide(section[start + 1]);
    if size - 2 < n {
        return None;
    }
    Some(Descriptor {
        tag: section[start],
        whole: Part { start, size: 2 + n },
        body: Part {
            start: start + 2,
            size: n,
        },
        rest: Part {
            start: start + (2 + n),
            size: size - (2 + n),
        },
    })
}

// The first descriptor of `rest`, which is a loop, or what a descriptor gave as those behind it.
#[tactic(auto, unfolding(crate::specs::Descriptors::next_descriptor))]
pub fn next_descriptor(section: &[u8], rest: Part) -> Option<Descriptor>
    ensures { result ≡ next_descriptor section.now rest }
{
    if is_within(section, rest) {
        return descriptor_at(section, rest);
    }
    None
}
