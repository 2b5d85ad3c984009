// 0x55 parental rating. A row: country_code, rating.
ghost use Rattle.writing.specs.Written.{Writes};
ghost use Rattle.write_lists.specs.ParentalRating.{parental_rating_written};

use crate::kinds::Kind;
use writing::Refusal;

pub fn write(numbers: &[i32], room: &mut [u8]) -> Result<usize, Refusal>
    ensures { Writes (parental_rating_written numbers.now) room.old result room.new }
{
    crate::rows::write(Kind::ParentalRating, numbers, room)
}
