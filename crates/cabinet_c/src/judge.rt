// The judge.
ghost use Rattle.std.specs.Prelude.{◌≡◌};
ghost use Rattle.section.specs.Reading.{judged};
ghost use Rattle.cabinet.specs.Judge.{judge_says};

use cabinet::judge::JudgeAnswer;

#[unsafe(no_mangle)]
pub extern "C" fn lohitunga_judge(section: &[u8]) -> JudgeAnswer
    ensures { result ≡ judge_says (judged section.now) }
{
    cabinet::judge::lohitunga_judge(section)
}
