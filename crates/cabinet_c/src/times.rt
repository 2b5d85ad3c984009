// Times, durations, offsets and dates.
ghost use Rattle.std.specs.Prelude.{◌≡◌};
ghost use Rattle.clock.specs.Time.{time_of};
ghost use Rattle.clock.specs.Duration.{duration_of};
ghost use Rattle.clock.specs.Offset.{offset_of};
ghost use Rattle.calendar.specs.Calendar.{date_of};
ghost use Rattle.cabinet.specs.Numbers.{is_set};
ghost use Rattle.cabinet.specs.Clock.{time_answer, duration_answer, offset_answer, date_answer};

use cabinet::times::{DateAnswer, DurationAnswer, OffsetAnswer, TimeAnswer};

#[unsafe(no_mangle)]
pub extern "C" fn lohitunga_read_time(mjd: u16, hour: u8, minute: u8, second: u8) -> TimeAnswer
    ensures { result ≡ time_answer (time_of mjd hour minute second) }
{
    cabinet::times::lohitunga_read_time(mjd, hour, minute, second)
}

#[unsafe(no_mangle)]
pub extern "C" fn lohitunga_read_duration(hour: u8, minute: u8, second: u8) -> DurationAnswer
    ensures { result ≡ duration_answer (duration_of hour minute second) }
{
    cabinet::times::lohitunga_read_duration(hour, minute, second)
}

// Any polarity but 0 is behind UTC.
#[unsafe(no_mangle)]
pub extern "C" fn lohitunga_read_offset(behind: u8, hour: u8, minute: u8) -> OffsetAnswer
    ensures { result ≡ offset_answer (offset_of (is_set behind) hour minute) }
{
    cabinet::times::lohitunga_read_offset(behind, hour, minute)
}

#[unsafe(no_mangle)]
pub extern "C" fn lohitunga_read_date(mjd: u16) -> DateAnswer
    ensures { result ≡ date_answer (date_of mjd) }
{
    cabinet::times::lohitunga_read_date(mjd)
}
