// Times and durations as answers, and inside them.
ghost use Rattle.std.specs.Prelude.{◌≡◌};
ghost use Rattle.clock.specs.Fault.{told};
ghost use Rattle.cabinet.specs.Clock.{moment_says, time_answer, duration_says, duration_answer};

use crate::numbers::of_fault;
use crate::times::{Duration, DurationAnswer, Moment, TimeAnswer};
use clock::time::{self, Time};
use clock::{Fault, Hms};

pub fn moment_of(moment: time::Moment) -> Moment
    ensures { result ≡ moment_says moment }
{
    match moment {
        None => Moment {
            undefined: 1,
            ..Moment::default()
        },
        Some(Time { mjd, clock }) => Moment {
            mjd,
            hour: clock.hour,
            minute: clock.minute,
            second: clock.second,
            undefined: 0,
        },
    }
}

pub fn time_answer(answer: Result<time::Moment, Fault>) -> TimeAnswer
    ensures { result ≡ time_answer (told answer) }
{
    let none = TimeAnswer::default();
    match answer {
        Ok(moment) => TimeAnswer {
            time: moment_of(moment),
            ..none
        },
        Err(fault) => {
            let why = of_fault(fault);
            TimeAnswer {
                number: why.number,
                place: why.place,
                digit: why.digit,
                ..none
            }
        }
    }
}

fn duration_of(t: Hms) -> Duration
    ensures { result ≡ duration_says t }
{
    Duration {
        hour: t.hour,
        minute: t.minute,
        second: t.second,
    }
}

pub fn duration_answer(answer: Result<Hms, Fault>) -> DurationAnswer
    ensures { result ≡ duration_answer (told answer) }
{
    let none = DurationAnswer::default();
    match answer {
        Ok(t) => DurationAnswer {
            duration: duration_of(t),
            ..none
        },
        Err(fault) => {
            let why = of_fault(fault);
            DurationAnswer {
                number: why.number,
                place: why.place,
                digit: why.digit,
                ..none
            }
        }
    }
}
