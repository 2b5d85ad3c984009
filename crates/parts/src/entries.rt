// The entries of a section, in turn.
ghost use Rattle.std.specs.Prelude.{◌≡◌, ◌+◌, ◌≤◌, length};
ghost use Rattle.tables.specs.Tables.{FixedTwo};
ghost use Rattle.parts.specs.Entries.{entry_at, next_entry};

use crate::{Part, is_within};
use tables::{row_for, table_of};

#[derive(Clone, Copy)]
pub struct Entry {
    // Its fixed bytes, of which the last two are its loop length.
    pub fixed: Part,
    // Its loop.
    pub descriptors: Part,
    // The entries behind it.
    pub rest: Part,
}

#[tactic(auto, using(crate::proofs::Fronts::entry_laws))]
fn entry_at(section: &[u8], fixed: usize, rest: Part) -> Option<Entry>
    requires { FixedTwo fixed × (rest.start + rest.size ≤ length section.now) }
    ensures { result ≡ entry_at section.now fixed rest }
{
    let start = rest.start;
    let size = rest.size;
    if fixed == 0 || size < fixed {
        return None;
    }
    let n = wire::length12_at(section, start + (fixed - 2));
    if size - fixed < n {
        return None;
    }
    Some(Entry {
        fixed: Part { start, size: fixed },
        descriptors: Part {
            start: start + fixed,
            size: n,
        },
        rest: Part {
            start: start + (fixed + n),
            size: size - (fixed + n),
        },
    })
}

// The first entry of `rest`, which is what `open` gave as the section's entries or an entry gave as those behind it.
#[tactic(auto, unfolding(crate::specs::Entries::next_entry))]
pub fn next_entry(section: &[u8], rest: Part) -> Option<Entry>
    ensures { result ≡ next_entry section.now rest }
{
    if is_within(section, rest) {
        let row = row_for(table_of(wire::numbers::byte_at(section, 0)));
        return entry_at(section, row.fixed, rest);
    }
    None
}
