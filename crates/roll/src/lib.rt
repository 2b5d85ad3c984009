// The roll: which sections of a sub-table have come, and the smallest number that has not.
#![tactic(auto)]

ghost use Rattle.std.specs.Prelude.{◌≡◌};
ghost use Rattle.roll.specs.Answer.{told_progress};
ghost use Rattle.roll.specs.declared.Refusal.TheVariants.{Judge};
ghost use Rattle.roll.specs.Roll.{empty_roll, asked, taking, heard};

use head::SubTable;

mod marking;
pub mod segments;
pub mod stepping;

// Eight section numbers: which of them have come, and where a schedule's segment ends.
#[derive(Clone, Copy)]
pub struct Segment {
    // segment_last_section_number, where it is known: 255 is the end of the last segment. Of tables other than schedules it
    // means nothing.
    pub end: Option<u8>,
    pub came: [bool; 8],
}

// "thirty-two segments of eight sections": segment k has the numbers from 8k to 8k + 7.
#[derive(Clone, Copy)]
pub struct Marks {
    pub segments: [Segment; 32],
}

#[derive(Clone, Copy)]
pub struct Roll {
    // False for an empty roll, whose other fields mean nothing.
    pub begun: bool,
    pub sub_table: SubTable,
    pub version: u8,
    pub last: u8,
    // Those above the last number mean nothing; of a schedule, nor do those of a segment whose end is unknown, or lies
    // outside it or above the last number.
    pub marks: Marks,
}

// What has come, of a roll that refuses nothing.
#[derive(Clone, Copy, PartialEq, Eq)]
pub enum Progress {
    // The smallest number that has not come.
    Missing(u8),
    // All numbers from 0 to the last have come; of a schedule, all up to the end of each segment.
    Complete,
}

#[derive(Clone, Copy, PartialEq, Eq)]
pub enum Refusal {
    // 1 to 10.
    Judge(verdict::Refusal),
    // 81: current_next_indicator 0.
    NotCurrent,
    // 82: another sub-table.
    AnotherSubTable,
    // 83: TDT, TOT.
    NoSubTable,
    // 84: segment_last_section_number below section_number, above last_section_number or in another segment.
    SegmentEnd,
}

impl From<verdict::Refusal> for Refusal {
    ghost from_gives = { λ judges refusal. refusal ≡ Judge judges };

    fn from(refusal: verdict::Refusal) -> Refusal {
        Refusal::Judge(refusal)
    }
}

pub type Answer = Result<Progress, Refusal>;

// What a section does to a roll that takes it: true where the roll goes on with what has come, false where it starts afresh.
pub type Course = Result<bool, Refusal>;

// What a roll keeps beside its marks.
#[derive(Clone, Copy)]
pub struct Kept {
    pub begun: bool,
    pub sub_table: SubTable,
    pub version: u8,
    pub last: u8,
}

// The roll after a section, and its answer.
#[derive(Clone, Copy)]
pub struct Step {
    pub roll: Roll,
    pub answer: Answer,
}

#[tactic(auto, unfolding(crate::specs::Roll::empty_roll))]
pub fn empty() -> Roll
    ensures { result ≡ empty_roll }
{
    Roll {
        begun: false,
        sub_table: SubTable {
            table_id: 0,
            extension: 0,
            transport_stream_id: 0,
            original_network_id: 0,
        },
        version: 0,
        last: 0,
        marks: marking::no_marks(),
    }
}

// The answer without a section.
#[tactic(auto, unfolding(crate::specs::Roll::asked))]
pub fn ask(roll: Roll) -> Progress
    ensures { told_progress result ≡ asked roll }
{
    if roll.begun {
        let schedule = segments::is_schedule(roll.sub_table.table_id);
        return segments::missing(roll.marks, roll.last, schedule);
    }
    Progress::Missing(0)
}

// "It takes a section; refuses 1 to 10, then 83 .., 82 .., 81 .., itself unchanged"; "84, after 81".
#[tactic(auto, using(crate::proofs::Outcomes::taking_by))]
pub fn take(roll: Roll, section: &[u8]) -> Step
    ensures { heard result ≡ taking roll section.now }
{
    let kept = Kept {
        begun: roll.begun,
        sub_table: roll.sub_table,
        version: roll.version,
        last: roll.last,
    };
    match kept.course_of(section) {
        Err(refusal) => Step {
            roll,
            answer: Err(refusal),
        },
        Ok(true) => stepping::answered_by(stepping::with_section(roll, section)),
        Ok(false) => stepping::answered_by(stepping::begun_with(section)),
    }
}
