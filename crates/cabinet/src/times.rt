// Times, durations, offsets and dates.
ghost use Rattle.std.specs.Prelude.{◌≡◌};
ghost use Rattle.clock.specs.Time.{time_of};
ghost use Rattle.clock.specs.Duration.{duration_of};
ghost use Rattle.clock.specs.Offset.{offset_of};
ghost use Rattle.calendar.specs.Calendar.{date_of};
ghost use Rattle.cabinet.specs.Numbers.{is_set};
ghost use Rattle.cabinet.specs.Clock.{time_answer, duration_answer, offset_answer, date_says, date_answer};

use crate::moments::{duration_answer, time_answer};
use crate::numbers::of_fault;
use clock::{duration, time};

// A time that was read.
#[repr(C)]
#[derive(Clone, Copy, Default)]
pub struct Moment {
    pub mjd: u16,
    pub hour: u8,
    pub minute: u8,
    pub second: u8,
    // 1 for forty ones.
    pub undefined: u8,
}

#[repr(C)]
#[derive(Clone, Copy, Default)]
pub struct TimeAnswer {
    pub number: u32,
    pub place: usize,
    pub digit: u32,
    pub time: Moment,
}

#[repr(C)]
#[derive(Clone, Copy, Default)]
pub struct Duration {
    pub hour: u8,
    pub minute: u8,
    pub second: u8,
}

#[repr(C)]
#[derive(Clone, Copy, Default)]
pub struct DurationAnswer {
    pub number: u32,
    pub place: usize,
    pub digit: u32,
    pub duration: Duration,
}

#[repr(C)]
#[derive(Clone, Copy, Default)]
pub struct OffsetAnswer {
    pub number: u32,
    pub place: usize,
    pub digit: u32,
    // Below zero behind UTC.
    pub minutes: i16,
}

#[repr(C)]
#[derive(Clone, Copy, Default)]
pub struct Date {
    pub year: u16,
    // From 1, January.
    pub month: u8,
    pub day: u8,
}

#[repr(C)]
#[derive(Clone, Copy, Default)]
pub struct DateAnswer {
    pub number: u32,
    pub place: usize,
    pub digit: u32,
    pub date: Date,
}

#[unsafe(no_mangle)]
pub extern "C" fn lohitunga_read_time(mjd: u16, hour: u8, minute: u8, second: u8) -> TimeAnswer
    ensures { result ≡ time_answer (time_of mjd hour minute second) }
{
    time_answer(time::read(mjd, hour, minute, second))
}

#[unsafe(no_mangle)]
pub extern "C" fn lohitunga_read_duration(hour: u8, minute: u8, second: u8) -> DurationAnswer
    ensures { result ≡ duration_answer (duration_of hour minute second) }
{
    duration_answer(duration::read(hour, minute, second))
}

// Any polarity but 0 is behind UTC.
#[unsafe(no_mangle)]
pub extern "C" fn lohitunga_read_offset(behind: u8, hour: u8, minute: u8) -> OffsetAnswer
    ensures { result ≡ offset_answer (offset_of (is_set behind) hour minute) }
{
    let none = OffsetAnswer::default();
    match clock::offset::read(behind != 0, hour, minute) {
        Ok(minutes) => OffsetAnswer { minutes, ..none },
        Err(fault) => {
            let why = of_fault(fault);
            OffsetAnswer {
                number: why.number,
                place: why.place,
                digit: why.digit,
                ..none
            }
        }
    }
}

fn date_given(date: calendar::Date) -> Date
    ensures { result ≡ date_says date }
{
    Date {
        year: date.year,
        month: date.month,
        day: date.day,
    }
}

#[unsafe(no_mangle)]
pub extern "C" fn lohitunga_read_date(mjd: u16) -> DateAnswer
    ensures { result ≡ date_answer (date_of mjd) }
{
    let none = DateAnswer::default();
    match calendar::date_of(mjd) {
        Ok(date) => DateAnswer {
            date: date_given(date),
            ..none
        },
        Err(fault) => {
            let why = of_fault(fault);
            DateAnswer {
                number: why.number,
                place: why.place,
                digit: why.digit,
                ..none
            }
        }
    }
}
