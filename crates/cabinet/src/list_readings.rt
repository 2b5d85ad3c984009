// The descriptors that are lists: how many items, and each by its index.
ghost use Rattle.std.specs.Prelude.{◌≡◌};
ghost use Rattle.layout.specs.Refusal.{told};
ghost use Rattle.lists.specs.ServiceList.{service_list, service_count};
ghost use Rattle.lists.specs.Content.{content, content_count};
ghost use Rattle.lists.specs.ParentalRating.{parental_rating, rating_count};
ghost use Rattle.lists.specs.LocalTimeOffset.{localTimeOffset, offset_count};
ghost use Rattle.cabinet.specs.Lists.{count_answer, service_list_says, service_list_answer};
ghost use Rattle.cabinet.specs.Lists.{content_says, content_answer};
ghost use Rattle.cabinet.specs.Lists.{parental_rating_says, parental_rating_answer};
ghost use Rattle.cabinet.specs.Lists.{local_time_offset_says, local_time_offset_answer};

use crate::moments::moment_of;
use crate::numbers::{of_refusal, why_of};
use crate::times::Moment;
use layout::Refusal;
use lists::{content, local_time_offset, parental_rating, service_list};

#[repr(C)]
#[derive(Clone, Copy, Default)]
pub struct CountAnswer {
    pub number: u32,
    pub count: usize,
}

#[repr(C)]
#[derive(Clone, Copy, Default)]
pub struct ServiceListItem {
    pub service_id: u16,
    pub service_type: u8,
}

#[repr(C)]
#[derive(Clone, Copy, Default)]
pub struct ServiceListAnswer {
    pub number: u32,
    pub item: ServiceListItem,
}

#[repr(C)]
#[derive(Clone, Copy, Default)]
pub struct ContentItem {
    pub content_nibble_level_1: u8,
    pub content_nibble_level_2: u8,
    pub user_byte: u8,
}

#[repr(C)]
#[derive(Clone, Copy, Default)]
pub struct ContentAnswer {
    pub number: u32,
    pub item: ContentItem,
}

#[repr(C)]
#[derive(Clone, Copy, Default)]
pub struct ParentalRatingItem {
    // Three characters, the first the highest byte.
    pub country_code: u32,
    pub rating: u8,
}

#[repr(C)]
#[derive(Clone, Copy, Default)]
pub struct ParentalRatingAnswer {
    pub number: u32,
    pub item: ParentalRatingItem,
}

#[repr(C)]
#[derive(Clone, Copy, Default)]
pub struct LocalTimeOffsetItem {
    // Three characters, the first the highest byte.
    pub country_code: u32,
    pub country_region_id: u8,
    // In minutes, below zero behind UTC.
    pub local_time_offset: i16,
    pub time_of_change: Moment,
    // In minutes, below zero behind UTC.
    pub next_time_offset: i16,
}

#[repr(C)]
#[derive(Clone, Copy, Default)]
pub struct LocalTimeOffsetAnswer {
    pub number: u32,
    pub place: usize,
    pub digit: u32,
    pub item: LocalTimeOffsetItem,
}

fn count_of(count: Result<usize, Refusal>) -> CountAnswer
    ensures { result ≡ count_answer (told count) }
{
    let none = CountAnswer::default();
    match count {
        Ok(count) => CountAnswer { count, ..none },
        Err(why) => CountAnswer {
            number: of_refusal(why),
            ..none
        },
    }
}

#[unsafe(no_mangle)]
pub extern "C" fn lohitunga_service_list_count(descriptor: &[u8]) -> CountAnswer
    ensures { result ≡ count_answer (service_count descriptor.now) }
{
    count_of(service_list::count(descriptor))
}

fn service_list_of(item: service_list::Item) -> ServiceListItem
    ensures { result ≡ service_list_says item }
{
    ServiceListItem {
        service_id: item.service_id,
        service_type: item.service_type,
    }
}

#[unsafe(no_mangle)]
pub extern "C" fn lohitunga_read_service_list(descriptor: &[u8], index: usize) -> ServiceListAnswer
    ensures { result ≡ service_list_answer (service_list descriptor.now index) }
{
    let none = ServiceListAnswer::default();
    match service_list::read(descriptor, index) {
        Ok(item) => ServiceListAnswer {
            item: service_list_of(item),
            ..none
        },
        Err(why) => ServiceListAnswer {
            number: of_refusal(why),
            ..none
        },
    }
}

#[unsafe(no_mangle)]
pub extern "C" fn lohitunga_content_count(descriptor: &[u8]) -> CountAnswer
    ensures { result ≡ count_answer (content_count descriptor.now) }
{
    count_of(content::count(descriptor))
}

fn content_of(item: content::Item) -> ContentItem
    ensures { result ≡ content_says item }
{
    ContentItem {
        content_nibble_level_1: item.content_nibble_level_1,
        content_nibble_level_2: item.content_nibble_level_2,
        user_byte: item.user_byte,
    }
}

#[unsafe(no_mangle)]
pub extern "C" fn lohitunga_read_content(descriptor: &[u8], index: usize) -> ContentAnswer
    ensures { result ≡ content_answer (content descriptor.now index) }
{
    let none = ContentAnswer::default();
    match content::read(descriptor, index) {
        Ok(item) => ContentAnswer {
            item: content_of(item),
            ..none
        },
        Err(why) => ContentAnswer {
            number: of_refusal(why),
            ..none
        },
    }
}

#[unsafe(no_mangle)]
pub extern "C" fn lohitunga_parental_rating_count(descriptor: &[u8]) -> CountAnswer
    ensures { result ≡ count_answer (rating_count descriptor.now) }
{
    count_of(parental_rating::count(descriptor))
}

fn parental_rating_of(item: parental_rating::Item) -> ParentalRatingItem
    ensures { result ≡ parental_rating_says item }
{
    ParentalRatingItem {
        country_code: item.country_code,
        rating: item.rating,
    }
}

#[unsafe(no_mangle)]
pub extern "C" fn lohitunga_read_parental_rating(
    descriptor: &[u8],
    index: usize,
) -> ParentalRatingAnswer
    ensures { result ≡ parental_rating_answer (parental_rating descriptor.now index) }
{
    match parental_rating::read(descriptor, index) {
        Ok(item) => ParentalRatingAnswer {
            number: 0,
            item: parental_rating_of(item),
        },
        Err(why) => ParentalRatingAnswer {
            number: of_refusal(why),
            item: ParentalRatingItem::default(),
        },
    }
}

#[unsafe(no_mangle)]
pub extern "C" fn lohitunga_local_time_offset_count(descriptor: &[u8]) -> CountAnswer
    ensures { result ≡ count_answer (offset_count descriptor.now) }
{
    count_of(local_time_offset::count(descriptor))
}

fn local_time_offset_of(item: local_time_offset::Item) -> LocalTimeOffsetItem
    ensures { result ≡ local_time_offset_says item }
{
    LocalTimeOffsetItem {
        country_code: item.country_code,
        country_region_id: item.country_region_id,
        local_time_offset: item.local_time_offset,
        time_of_change: moment_of(item.time_of_change),
        next_time_offset: item.next_time_offset,
    }
}

#[unsafe(no_mangle)]
pub extern "C" fn lohitunga_read_local_time_offset(
    descriptor: &[u8],
    index: usize,
) -> LocalTimeOffsetAnswer
    ensures { result ≡ local_time_offset_answer (localTimeOffset descriptor.now index) }
{
    let none = LocalTimeOffsetAnswer::default();
    match local_time_offset::read(descriptor, index) {
        Ok(item) => LocalTimeOffsetAnswer {
            item: local_time_offset_of(item),
            ..none
        },
        Err(refusal) => {
            let why = why_of(refusal);
            LocalTimeOffsetAnswer {
                number: why.number,
                place: why.place,
                digit: why.digit,
                ..none
            }
        }
    }
}
