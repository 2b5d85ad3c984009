// The time of change of a local time offset: the numbers of its row from 3 on, mjd, hour, minute, second, undefined.
ghost use Rattle.std.specs.Prelude.{◌^◌, drop};
ghost use Rattle.write_lists.specs.LocalTimeOffset.{moment};
ghost use Rattle.write_lists.specs.Inner.Numbers.{Within};
ghost use Rattle.write_lists.specs.Inner.Offsets.{day_bits, clock_bits, some_time_bits, no_time_bits, moment_bits};

use crate::numbers::{beside, natural_at, two_digits};

// A day from 15,079 on.
#[tactic(auto, unfolding(crate::specs::Inner::Offsets::day_bits))]
fn day(row: &[i32]) -> Option<u64>
    ensures { Within (2 ^ 16) (day_bits row.now) result }
{
    let mjd = natural_at(row, 3, 0x1_0000)?;
    (15079 <= mjd).then_some(mjd)
}

// The six digits of a clock.
fn clock(row: &[i32]) -> Option<u64>
    ensures { Within (2 ^ 24) (clock_bits row.now) result }
{
    let hour = two_digits(natural_at(row, 4, 24));
    let minute = two_digits(natural_at(row, 5, 60));
    let second = two_digits(natural_at(row, 6, 60));
    beside(beside(hour, 0x100, minute), 0x100, second)
}

// The day, and the clock behind it.
fn some_time(row: &[i32]) -> Option<u64>
    ensures { Within (2 ^ 40) (some_time_bits row.now) result }
{
    beside(day(row), 0x100_0000, clock(row))
}

// Forty ones, and four numbers that are 0.
fn no_time(row: &[i32]) -> Option<u64>
    ensures { Within (2 ^ 40) (no_time_bits row.now) result }
{
    let first = beside(natural_at(row, 3, 1), 1, natural_at(row, 4, 1));
    let last = beside(natural_at(row, 5, 1), 1, natural_at(row, 6, 1));
    beside(beside(first, 1, last), 1, Some(0xFF_FFFF_FFFF))
}

pub fn time(row: &[i32]) -> Option<u64>
    ensures { Within (2 ^ 40) (moment_bits (moment (drop 3 row.now))) result }
{
    let undefined = natural_at(row, 7, 2)?;
    if undefined == 1 {
        no_time(row)
    } else {
        some_time(row)
    }
}
