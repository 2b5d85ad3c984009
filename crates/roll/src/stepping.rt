// A roll and a section.
ghost use Rattle.std.specs.Prelude.{◌≡◌};
ghost use Rattle.roll.specs.Roll.{another_for, afresh_for, segment_end_in, end_unfit, segment_after, marked_by};
ghost use Rattle.roll.specs.Roll.{begun_with, continued, answering, heard, told_course, course_of, course_if_accepted, course_if_current};

use crate::marking::{ending_at, no_marks, with_mark};
use crate::segments::is_schedule;
use crate::{Course, Kept, Marks, Refusal, Roll, Segment, Step};
use head::sub_tables::{as_compared, same_ids, sub_table_of};
use head::{has_no_sub_table, is_current, last_of, number_of, version_of};
use section::judge::judge;
use wire::numbers::byte_at;

// segment_last_section_number: byte 12 of EIT.
fn segment_end_of(section: &[u8]) -> u8
    ensures { result ≡ segment_end_in section.now }
{
    byte_at(section, 12)
}

// "when segment_last_section_number lies below section_number, above last_section_number or in another segment"
#[tactic(auto, unfolding(crate::specs::Roll::end_unfit))]
fn end_unfit(section: &[u8]) -> bool
    ensures { result ≡ end_unfit section.now }
{
    let end = segment_end_of(section);
    let number = number_of(section);
    is_schedule(byte_at(section, 0))
        && (end < number || last_of(section) < end || end / 8 != number / 8)
}

impl Kept {
    fn is_another(self, section: &[u8]) -> bool
        ensures { result ≡ another_for self.begun self.sub_table section.now }
    {
        self.begun && !same_ids(as_compared(self.sub_table), sub_table_of(section))
    }

    fn starts_afresh(self, section: &[u8]) -> bool
        ensures { result ≡ afresh_for self.begun self.version self.last section.now }
    {
        !self.begun || self.version != version_of(section) || self.last != last_of(section)
    }

    // What a section that none of 83, 82 and 81 refuses does to the roll.
    #[tactic(auto, unfolding(crate::specs::Roll::course_if_current))]
    fn course_if_current(self, section: &[u8]) -> Course
        ensures { told_course result
            ≡ course_if_current self.begun self.version self.last section.now }
    {
        if end_unfit(section) {
            return Err(Refusal::SegmentEnd);
        }
        Ok(!self.starts_afresh(section))
    }

    // What a section that the judge accepts does to the roll.
    #[tactic(auto, unfolding(crate::specs::Roll::course_if_accepted))]
    fn course_if_accepted(self, section: &[u8]) -> Course
        ensures { told_course result
            ≡ course_if_accepted self.begun self.sub_table self.version self.last section.now }
    {
        if has_no_sub_table(section) {
            return Err(Refusal::NoSubTable);
        }
        if self.is_another(section) {
            return Err(Refusal::AnotherSubTable);
        }
        if !is_current(section) {
            return Err(Refusal::NotCurrent);
        }
        self.course_if_current(section)
    }

    // What a section does to the roll. It looks at no mark.
    #[tactic(auto, unfolding(crate::specs::Roll::course_of))]
    pub fn course_of(self, section: &[u8]) -> Course
        ensures { told_course result
            ≡ course_of self.begun self.sub_table self.version self.last section.now }
    {
        judge(section)?;
        self.course_if_accepted(section)
    }
}

// The segment that a section stands in, after it.
#[tactic(auto, unfolding(crate::specs::Roll::segment_after))]
pub fn segment_after(segment: Segment, section: &[u8]) -> Segment
    ensures { result ≡ segment_after segment section.now }
{
    let number = number_of(section);
    if is_schedule(byte_at(section, 0)) {
        return with_mark(ending_at(segment, segment_end_of(section)), number);
    }
    with_mark(segment, number)
}

// The marks after a section.
#[tactic(auto, using(crate::proofs::Outcomes::marked_by_segment), unfolding(crate::specs::Marks::segment_at))]
fn marked_by(marks: Marks, section: &[u8]) -> Marks
    ensures { result ≡ marked_by marks section.now }
{
    let at = (number_of(section) / 8) as usize;
    let mut after = marks;
    after.segments[at] = segment_after(marks.segments[at], section);
    after
}

// The roll in which this section alone has come.
#[tactic(auto, unfolding(crate::specs::Roll::begun_with))]
pub fn begun_with(section: &[u8]) -> Roll
    ensures { result ≡ begun_with section.now }
{
    Roll {
        begun: true,
        sub_table: sub_table_of(section),
        version: version_of(section),
        last: last_of(section),
        marks: marked_by(no_marks(), section),
    }
}

// The roll in which this section has come too.
#[tactic(auto, unfolding(crate::specs::Roll::continued))]
pub fn with_section(roll: Roll, section: &[u8]) -> Roll
    ensures { result ≡ continued roll section.now }
{
    Roll {
        marks: marked_by(roll.marks, section),
        ..roll
    }
}

// A roll and its answer.
pub fn answered_by(roll: Roll) -> Step
    ensures { heard result ≡ answering roll }
{
    Step {
        roll,
        answer: Ok(crate::ask(roll)),
    }
}
