// The descriptors that are lists: how many items, and each by its index.
ghost use Rattle.std.specs.Prelude.{◌≡◌};
ghost use Rattle.lists.specs.ServiceList.{service_list, service_count};
ghost use Rattle.lists.specs.Content.{content, content_count};
ghost use Rattle.lists.specs.ParentalRating.{parental_rating, rating_count};
ghost use Rattle.lists.specs.LocalTimeOffset.{localTimeOffset, offset_count};
ghost use Rattle.cabinet.specs.Lists.{count_answer, service_list_answer, content_answer, parental_rating_answer, local_time_offset_answer};

use cabinet::list_readings::{
    ContentAnswer, CountAnswer, LocalTimeOffsetAnswer, ParentalRatingAnswer, ServiceListAnswer,
};

#[unsafe(no_mangle)]
pub extern "C" fn lohitunga_service_list_count(descriptor: &[u8]) -> CountAnswer
    ensures { result ≡ count_answer (service_count descriptor.now) }
{
    cabinet::list_readings::lohitunga_service_list_count(descriptor)
}

#[unsafe(no_mangle)]
pub extern "C" fn lohitunga_read_service_list(descriptor: &[u8], index: usize) -> ServiceListAnswer
    ensures { result ≡ service_list_answer (service_list descriptor.now index) }
{
    cabinet::list_readings::lohitunga_read_service_list(descriptor, index)
}

#[unsafe(no_mangle)]
pub extern "C" fn lohitunga_content_count(descriptor: &[u8]) -> CountAnswer
    ensures { result ≡ count_answer (content_count descriptor.now) }
{
    cabinet::list_readings::lohitunga_content_count(descriptor)
}

#[unsafe(no_mangle)]
pub extern "C" fn lohitunga_read_content(descriptor: &[u8], index: usize) -> ContentAnswer
    ensures { result ≡ content_answer (content descriptor.now index) }
{
    cabinet::list_readings::lohitunga_read_content(descriptor, index)
}

#[unsafe(no_mangle)]
pub extern "C" fn lohitunga_parental_rating_count(descriptor: &[u8]) -> CountAnswer
    ensures { result ≡ count_answer (rating_count descriptor.now) }
{
    cabinet::list_readings::lohitunga_parental_rating_count(descriptor)
}

#[unsafe(no_mangle)]
pub extern "C" fn lohitunga_read_parental_rating(
    descriptor: &[u8],
    index: usize,
) -> ParentalRatingAnswer
    ensures { result ≡ parental_rating_answer (parental_rating descriptor.now index) }
{
    cabinet::list_readings::lohitunga_read_parental_rating(descriptor, index)
}

#[unsafe(no_mangle)]
pub extern "C" fn lohitunga_local_time_offset_count(descriptor: &[u8]) -> CountAnswer
    ensures { result ≡ count_answer (offset_count descriptor.now) }
{
    cabinet::list_readings::lohitunga_local_time_offset_count(descriptor)
}

#[unsafe(no_mangle)]
pub extern "C" fn lohitunga_read_local_time_offset(
    descriptor: &[u8],
    index: usize,
) -> LocalTimeOffsetAnswer
    ensures { result ≡ local_time_offset_answer (localTimeOffset descriptor.now index) }
{
    cabinet::list_readings::lohitunga_read_local_time_offset(descriptor, index)
}
