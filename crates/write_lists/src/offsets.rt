// The item of a local time offset: six bytes in front of its time, and seven.
ghost use Rattle.std.specs.Prelude.{◌^◌};
ghost use Rattle.write_lists.specs.Inner.Numbers.{Within};
ghost use Rattle.write_lists.specs.Inner.Offsets.{hours_in, signs, place_bits, front_bits, back_bits};

use crate::numbers::{beside, natural_at, two_digits};
use crate::times::time;
use writing::rows::{Sized, sized_at};

// Two digits of hours and two of minutes, of less than a day.
fn hours(offset: Sized) -> Option<u64>
    ensures { Within (2 ^ 16) (hours_in offset) result }
{
    let minutes = offset.size;
    if 1440 <= minutes {
        return None;
    }
    let hour = two_digits(Some((minutes / 60) as u64));
    let minute = two_digits(Some((minutes % 60) as u64));
    beside(hour, 0x100, minute)
}

// A reserved bit, and the polarity that serves both offsets: they are not of opposite sign.
#[tactic(auto, unfolding(crate::specs::Inner::Offsets::signs))]
fn polarity(local: Sized, next: Sized) -> Option<u64>
    ensures { Within 4 (signs local next) result }
{
    if local.below_zero {
        (next.below_zero || next.size == 0).then_some(3)
    } else if next.below_zero {
        (local.size == 0).then_some(3)
    } else {
        Some(2)
    }
}

// The country and its region.
fn place(row: &[i32]) -> Option<u64>
    ensures { Within (2 ^ 30) (place_bits row.now) result }
{
    beside(natural_at(row, 0, 0x100_0000), 64, natural_at(row, 1, 64))
}

// The country, its region, the polarity and the offset.
pub fn front(row: &[i32]) -> Option<u64>
    ensures { Within (2 ^ 48) (front_bits row.now) result }
{
    let local = sized_at(row, 2);
    let signed = beside(place(row), 4, polarity(local, sized_at(row, 8)));
    beside(signed, 0x1_0000, hours(local))
}

// The time of change and the next offset.
pub fn back(row: &[i32]) -> Option<u64>
    ensures { Within (2 ^ 56) (back_bits row.now) result }
{
    beside(time(row), 0x1_0000, hours(sized_at(row, 8)))
}
