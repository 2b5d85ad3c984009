// 0x55 parental rating: items of 4 bytes.
ghost use Rattle.std.specs.Prelude.{◌≡◌};
ghost use Rattle.layout.specs.Refusal.{told};
ghost use Rattle.lists.specs.ParentalRating.{fields, parental_rating, rating_count};

use layout::Refusal;
use layout::items::{item, number_of};
use wire::numbers::{byte_at, number24_at};

#[derive(Clone, Copy)]
pub struct Item {
    // Three characters, the first the highest byte.
    pub country_code: u32,
    pub rating: u8,
}

fn fields_of(b: &[u8]) -> Item
    ensures { result ≡ fields b.now }
{
    Item {
        country_code: number24_at(b, 0),
        rating: byte_at(b, 3),
    }
}

// How many items there are.
pub fn count(s: &[u8]) -> Result<usize, Refusal>
    ensures { told result ≡ rating_count s.now }
{
    number_of(s, 0x55, 4)
}

// The item of an index counted from 0.
#[tactic(auto, unfolding(crate::specs::ParentalRating::parental_rating))]
pub fn read(s: &[u8], index: usize) -> Result<Item, Refusal>
    ensures { told result ≡ parental_rating s.now index }
{
    let b = item(s, 0x55, 4, index)?;
    Ok(fields_of(b))
}
