// 0x41 service list: items of 3 bytes.
ghost use Rattle.std.specs.Prelude.{◌≡◌};
ghost use Rattle.layout.specs.Refusal.{told};
ghost use Rattle.lists.specs.ServiceList.{fields, service_list, service_count};

use layout::Refusal;
use layout::items::{item, number_of};
use wire::numbers::{byte_at, number16_at};

#[derive(Clone, Copy)]
pub struct Item {
    pub service_id: u16,
    pub service_type: u8,
}

fn fields_of(b: &[u8]) -> Item
    ensures { result ≡ fields b.now }
{
    Item {
        service_id: number16_at(b, 0),
        service_type: byte_at(b, 2),
    }
}

// How many items there are.
pub fn count(s: &[u8]) -> Result<usize, Refusal>
    ensures { told result ≡ service_count s.now }
{
    number_of(s, 0x41, 3)
}

// The item of an index counted from 0.
#[tactic(auto, unfolding(crate::specs::ServiceList::service_list))]
pub fn read(s: &[u8], index: usize) -> Result<Item, Refusal>
    ensures { told result ≡ service_list s.now index }
{
    let b = item(s, 0x41, 3, index)?;
    Ok(fields_of(b))
}
