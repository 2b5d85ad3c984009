// What the refusals of readings tell, document 01's number first, and flags as numbers.
ghost use Rattle.std.specs.Prelude.{◌≡◌};
ghost use Rattle.clock.specs.Fault.{number_of, numbered as faultNumbered, plain as faultPlain};
ghost use Rattle.layout.specs.Refusal.{numbered};
ghost use Rattle.cabinet.specs.Numbers.{bit, why_says};

use clock::Fault;
use layout::Refusal;

// What a refusal tells; zeros for what its number does not carry.
#[derive(Clone, Copy)]
pub struct Why {
    pub number: u32,
    pub place: usize,
    pub digit: u32,
}

// 63 to 65, with the field's place, and of 63 the digit's in the field.
pub fn of_fault(fault: Fault) -> Why
    ensures { result ≡ why_says (faultNumbered fault) }
{
    match fault {
        Fault::BadDigit { place, digit } => Why {
            number: 63,
            place,
            digit,
        },
        Fault::OutOfRange { place } => Why {
            number: 64,
            place,
            digit: 0,
        },
        Fault::TooEarly { place } => Why {
            number: 65,
            place,
            digit: 0,
        },
    }
}

// 61, 62 and 66 carry neither.
fn plain(number: u32) -> Why
    ensures { result ≡ why_says (faultPlain number) }
{
    Why {
        number,
        place: 0,
        digit: 0,
    }
}

// 61 to 66.
pub fn why_of(refusal: Refusal) -> Why
    ensures { result ≡ why_says (numbered refusal) }
{
    match refusal {
        Refusal::WrongTag => plain(61),
        Refusal::DoesNotFit => plain(62),
        Refusal::PastEnd => plain(66),
        Refusal::Field(fault) => of_fault(fault),
    }
}

// The number alone, of a reading that has no field to refuse.
pub fn of_refusal(refusal: Refusal) -> u32
    ensures { result ≡ number_of (numbered refusal) }
{
    why_of(refusal).number
}

// 1 for true, 0 for false.
pub fn of_flag(flag: bool) -> u8
    ensures { result ≡ bit flag }
{
    u8::from(flag)
}
