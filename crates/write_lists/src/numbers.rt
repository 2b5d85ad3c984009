// Numbers of a row, each below its limit, and numbers made of several: the bits of an item, or none for a number outside its field.
ghost use Rattle.std.specs.Prelude.{◌≡◌, ◌+◌, ◌*◌, ◌^◌, ◌≤◌, ◌<◌, length, drop, get_or, pos};
ghost use Rattle.writing.specs.Rows.{natural};
ghost use Rattle.write_lists.specs.Inner.Numbers.{bits_or, told_bits, Within, Joined, digits};

use writing::digits::to_bcd;
use writing::rows::sized_at;

// What follows the first n numbers.
pub fn after(numbers: &[i32], n: usize) -> &[i32]
    requires { n ≤ length numbers.now }
    ensures { result.now ≡ drop n numbers.now }
{
    &numbers[n..]
}

// The number at a place, from 0 on and below a limit.
#[tactic(auto, unfolding(writing::specs::Rows::natural))]
pub fn natural_at(row: &[i32], at: usize, limit: u32) -> Option<u64>
    requires { 0 < limit }
    ensures { Within limit (natural limit (get_or row.now at (pos 0))) result }
{
    let z = sized_at(row, at);
    (!z.below_zero && z.size < limit).then_some(z.size as u64)
}

// One number in front of another, which has so many values.
#[tactic(auto, unfolding(crate::specs::Inner::Numbers::joint))]
pub fn beside(high: Option<u64>, values: u64, low: Option<u64>) -> Option<u64>
    requires { bits_or high * values + bits_or low < 2 ^ 64 }
    ensures { Joined high values low result }
{
    Some(high? * values + low?)
}

// The two digits of a number.
pub fn two_digits(number: Option<u64>) -> Option<u64>
    requires { bits_or number < 100 }
    ensures { Within 256 (digits (told_bits number)) result }
{
    Some(to_bcd(number? as u32) as u64)
}
