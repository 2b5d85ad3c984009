// What a writer answers in numbers.
ghost use Rattle.std.specs.Prelude.{◌≡◌};
ghost use Rattle.writing.specs.Written.{told};
ghost use Rattle.desk.specs.Answers.{says, saysOutside};

use writing::Refusal;

#[repr(C)]
#[derive(Clone, Copy)]
pub struct WriteAnswer {
    pub number: u32,
    pub size: usize,
}

pub fn answer_of(written: Result<usize, Refusal>) -> WriteAnswer
    ensures { result ≡ says (told written) }
{
    match written {
        Ok(size) => WriteAnswer { number: 0, size },
        Err(refusal) => WriteAnswer {
            number: match refusal {
                Refusal::Room => 111,
                Refusal::Field => 112,
                Refusal::Long => 113,
            },
            size: 0,
        },
    }
}

// A field that no reading gives: 112, and before it 111.
pub fn outside(room: usize) -> WriteAnswer
    ensures { result ≡ saysOutside room }
{
    if room < 257 {
        answer_of(Err(Refusal::Room))
    } else {
        answer_of(Err(Refusal::Field))
    }
}
