// The lists, as rows of numbers.
ghost use Rattle.desk.specs.Answers.{Called};
ghost use Rattle.write_lists.specs.ServiceList.{service_list_written};
ghost use Rattle.write_lists.specs.Content.{content_written};
ghost use Rattle.write_lists.specs.ParentalRating.{parental_rating_written};
ghost use Rattle.write_lists.specs.LocalTimeOffset.{local_time_offset_written};

use crate::answers::{WriteAnswer, answer_of};
use write_lists::{content, local_time_offset, parental_rating, service_list};

#[unsafe(no_mangle)]
pub extern "C" fn lohitunga_write_service_list(numbers: &[i32], room: &mut [u8]) -> WriteAnswer
    ensures { Called (service_list_written numbers.now) room.old result room.new }
{
    answer_of(service_list::write(numbers, room))
}

#[unsafe(no_mangle)]
pub extern "C" fn lohitunga_write_content(numbers: &[i32], room: &mut [u8]) -> WriteAnswer
    ensures { Called (content_written numbers.now) room.old result room.new }
{
    answer_of(content::write(numbers, room))
}

#[unsafe(no_mangle)]
pub extern "C" fn lohitunga_write_parental_rating(numbers: &[i32], room: &mut [u8]) -> WriteAnswer
    ensures { Called (parental_rating_written numbers.now) room.old result room.new }
{
    answer_of(parental_rating::write(numbers, room))
}

#[unsafe(no_mangle)]
pub extern "C" fn lohitunga_write_local_time_offset(numbers: &[i32], room: &mut [u8]) -> WriteAnswer
    ensures { Called (local_time_offset_written numbers.now) room.old result room.new }
{
    answer_of(local_time_offset::write(numbers, room))
}
