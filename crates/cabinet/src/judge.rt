// The judge.
ghost use Rattle.std.specs.Prelude.{◌≡◌};
ghost use Rattle.section.specs.Reading.{judged};
ghost use Rattle.cabinet.specs.Judge.{judge_says};

#[repr(C)]
#[derive(Clone, Copy)]
pub struct JudgeAnswer {
    pub number: u32,
    pub place: usize,
}

#[unsafe(no_mangle)]
pub extern "C" fn lohitunga_judge(section: &[u8]) -> JudgeAnswer
    ensures { result ≡ judge_says (judged section.now) }
{
    let verdict = section::judge::judge(section);
    JudgeAnswer {
        number: verdict::number(verdict) as u32,
        place: verdict::place(verdict),
    }
}
