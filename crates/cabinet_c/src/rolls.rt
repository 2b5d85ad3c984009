// The roll, with its record as numbers. Its marks stay flat, as C reads them: a call makes one segment of them at a time.
ghost use Rattle.std.specs.Prelude.{◌≡◌};
ghost use Rattle.roll.specs.Roll.{empty_roll, asked};
ghost use Rattle.cabinet.specs.Roll.{roll_in, roll_says, roll_answer, holds, rolling};

use cabinet::rolls::{Roll, RollAnswer};

#[unsafe(no_mangle)]
pub extern "C" fn lohitunga_roll_empty() -> Roll
    ensures { result ≡ roll_says empty_roll }
{
    cabinet::rolls::lohitunga_roll_empty()
}

#[unsafe(no_mangle)]
pub extern "C" fn lohitunga_roll_ask(roll: &Roll) -> RollAnswer
    ensures { result ≡ roll_answer (asked (roll_in roll.now)) }
{
    cabinet::rolls::lohitunga_roll_ask(roll)
}

#[unsafe(no_mangle)]
pub extern "C" fn lohitunga_roll_take(roll: &mut Roll, section: &[u8]) -> RollAnswer
    ensures { holds roll.new result ≡ rolling roll.old section.now }
{
    cabinet::rolls::lohitunga_roll_take(roll, section)
}
