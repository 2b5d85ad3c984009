// The items whose numbers are their fields, as bits.
ghost use Rattle.std.specs.Prelude.{◌^◌};
ghost use Rattle.write_lists.specs.Inner.Numbers.{Within};
ghost use Rattle.write_lists.specs.Inner.Kinds.{service_bits, content_bits, rating_bits};

use crate::numbers::{beside, natural_at};

pub fn service(row: &[i32]) -> Option<u64>
    ensures { Within (2 ^ 24) (service_bits row.now) result }
{
    let id = natural_at(row, 0, 0x1_0000);
    beside(id, 0x100, natural_at(row, 1, 0x100))
}

pub fn content(row: &[i32]) -> Option<u64>
    ensures { Within (2 ^ 16) (content_bits row.now) result }
{
    let nibbles = beside(natural_at(row, 0, 16), 16, natural_at(row, 1, 16));
    beside(nibbles, 0x100, natural_at(row, 2, 0x100))
}

pub fn rating(row: &[i32]) -> Option<u64>
    ensures { Within (2 ^ 32) (rating_bits row.now) result }
{
    let country = natural_at(row, 0, 0x100_0000);
    beside(country, 0x100, natural_at(row, 1, 0x100))
}
