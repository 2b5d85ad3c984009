// "The date is the Gregorian one of the MJD": counted as docs/DATES.md does it with pencil and paper.
#![tactic(auto)]

ghost use Rattle.std.specs.Prelude.{◌≡◌, ◌+◌, ◌-◌, ◌<◌, ◌≤◌};
ghost use Rattle.clock.specs.Fault.{told};
ghost use Rattle.calendar.specs.Calendar.{leap, days_in, date_of, gregorian};
ghost use Rattle.calendar.specs.Dates.{days_of_months, days_of_years};

use clock::Fault;

#[derive(Clone, Copy)]
pub struct Date {
    pub year: u16,
    // From 1, January.
    pub month: u8,
    pub day: u8,
}

// The days of January to December; February has a day more in a leap year.
const MONTHS: [u16; 12] = [31, 28, 31, 30, 31, 30, 31, 31, 30, 31, 30, 31];

// A year that 4 divides; of the hundreds only one that 400 divides, so that 1900 is none and 2000 is one.
fn is_leap(year: u16) -> bool
    ensures { result ≡ leap year }
{
    year % 4 == 0 && (year % 100 != 0 || year % 400 == 0)
}

#[tactic(auto, using(crate::proofs::Counting::leap_year, crate::proofs::Counting::common_year))]
fn year_length(year: u16) -> u16
    ensures { result ≡ days_of_months year 12 }
{
    if is_leap(year) { 366 } else { 365 }
}

#[tactic(auto, using(crate::proofs::Months::by_the_list, crate::proofs::Months::a_day_more))]
fn month_length(year: u16, month: u8) -> u16
    requires { (1 ≤ month) × (month ≤ 12) }
    ensures { result ≡ days_in year month }
{
    let length = MONTHS[month as usize - 1];
    if month == 2 && is_leap(year) {
        length + 1
    } else {
        length
    }
}

// A year, and the days that are left from its first of January on.
#[derive(Clone, Copy)]
struct InYear {
    year: u16,
    left: u16,
}

// Whole years counted off, from 1900 on.
#[tactic(auto, using(crate::proofs::Counting::years), unfolding(crate::specs::Dates::days_of_years))]
fn years_off(days: u16) -> InYear
    ensures { (1900 ≤ result.year) × (days_of_years (result.year - 1900) + result.left ≡ days)
        × (result.left < days_of_months result.year 12) }
{
    let mut year: u16 = 1900;
    let mut left = days;
    while year_length(year) <= left {
        left -= year_length(year);
        year += 1;
    }
    InYear { year, left }
}

// From day 15,020, the first of January 1900, on: whole years off, then whole months; a month's days count from 1.
#[tactic(auto, using(crate::proofs::Counting::months), unfolding(crate::specs::Dates::days_of_months))]
fn counted(mjd: u16) -> Date
    requires { 15079 ≤ mjd }
    ensures { result ≡ gregorian mjd }
{
    let InYear { year, mut left } = years_off(mjd - 15_020);
    let mut month: u8 = 1;
    while month_length(year, month) <= left {
        left -= month_length(year, month);
        month += 1;
    }
    Date {
        year,
        month,
        day: (left + 1) as u8,
    }
}

#[tactic(auto, unfolding(crate::specs::Calendar::date_of))]
pub fn date_of(mjd: u16) -> Result<Date, Fault>
    ensures { told result ≡ date_of mjd }
{
    if mjd < 15079 {
        Err(Fault::TooEarly { place: 0 })
    } else {
        Ok(counted(mjd))
    }
}
