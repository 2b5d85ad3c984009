// 0x54 content: items of 2 bytes.
ghost use Rattle.std.specs.Prelude.{◌≡◌};
ghost use Rattle.layout.specs.Refusal.{told};
ghost use Rattle.lists.specs.Content.{fields, content, content_count};

use layout::Refusal;
use layout::items::{item, number_of};
use wire::numbers::{bits_at, byte_at};

#[derive(Clone, Copy)]
pub struct Item {
    pub content_nibble_level_1: u8,
    pub content_nibble_level_2: u8,
    pub user_byte: u8,
}

fn fields_of(b: &[u8]) -> Item
    ensures { result ≡ fields b.now }
{
    Item {
        content_nibble_level_1: bits_at(b, 0, 7, 4),
        content_nibble_level_2: bits_at(b, 0, 3, 0),
        user_byte: byte_at(b, 1),
    }
}

// How many items there are.
pub fn count(s: &[u8]) -> Result<usize, Refusal>
    ensures { told result ≡ content_count s.now }
{
    number_of(s, 0x54, 2)
}

// The item of an index counted from 0.
#[tactic(auto, unfolding(crate::specs::Content::content))]
pub fn read(s: &[u8], index: usize) -> Result<Item, Refusal>
    ensures { told result ≡ content s.now index }
{
    let b = item(s, 0x54, 2, index)?;
    Ok(fields_of(b))
}
