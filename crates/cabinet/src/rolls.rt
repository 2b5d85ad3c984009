// The roll, with its record as numbers. Its marks stay flat, as C reads them: a call makes one segment of them at a time.
ghost use Rattle.std.specs.Prelude.{◌<◌, ◌≡◌, true, length};
ghost use Rattle.roll.specs.Answer.{refusing, told_progress, told_refusal};
ghost use Rattle.roll.specs.Roll.{empty_roll, answered, asked};
ghost use Rattle.cabinet.specs.Numbers.{is_set};
ghost use Rattle.cabinet.specs.Roll.{end_in, known_says, end_says, sub_table_in, roll_in, roll_says, roll_answer, holds, rolling};
ghost use Rattle.cabinet.specs.Inner.Rolls.{flags_kept, numbersOf, known_kept, ends_settled, eight_of, with_eight, segment_in};
ghost use Rattle.cabinet.specs.Inner.Rolls.{marks_of, after_taking, kept_of, saying};

use crate::numbers::of_flag;
use head::sub_tables::sub_table_of;
use head::{SubTable, last_of, number_of, version_of};
use roll::segments::{gap, is_schedule};
use roll::stepping::segment_after;
use roll::{Kept, Progress, Refusal, Segment};

#[repr(C)]
#[derive(Clone, Copy)]
pub struct Roll {
    // 0 for an empty roll.
    pub begun: u8,
    pub table_id: u8,
    pub extension: u16,
    pub transport_stream_id: u16,
    pub original_network_id: u16,
    pub version: u8,
    pub last: u8,
    // Not 0: the section of that number has come.
    pub came: [u8; 256],
    // Not 0: the end of that segment is known.
    pub known: [u8; 32],
    pub end: [u8; 32],
}

#[repr(C)]
#[derive(Clone, Copy)]
pub struct RollAnswer {
    pub number: u32,
    pub place: usize,
    pub complete: u8,
    pub missing: u8,
}

// The roll after a section, and the answer.
#[derive(Clone, Copy)]
struct Rolled {
    roll: Roll,
    answer: RollAnswer,
}

// Which numbers have come; none where nothing is kept.
fn flags_in(came: &[u8; 256], keep: bool) -> [bool; 256]
    ensures { result ≡ flags_kept keep came.now }
{
    let mut flags = [false; 256];
    for i in 0..256 {
        flags[i] = keep && came[i] != 0;
    }
    flags
}

// The same as numbers.
fn numbers_of(flags: &[bool; 256]) -> [u8; 256]
    ensures { result ≡ numbersOf flags.now }
{
    let mut numbers = [0u8; 256];
    for i in 0..256 {
        numbers[i] = of_flag(flags[i]);
    }
    numbers
}

// Which ends are known, as 0 and 1; none where nothing is kept.
fn known_in(known: &[u8; 32], keep: bool) -> [u8; 32]
    ensures { result ≡ known_kept keep known.now }
{
    let mut numbers = [0u8; 32];
    for k in 0..32 {
        numbers[k] = of_flag(keep && known[k] != 0);
    }
    numbers
}

// The ends that are known; 0 for the others.
fn ends_in(known: &[u8; 32], end: &[u8; 32]) -> [u8; 32]
    ensures { result ≡ ends_settled known.now end.now }
{
    let mut numbers = [0u8; 32];
    for k in 0..32 {
        numbers[k] = if known[k] != 0 { end[k] } else { 0 };
    }
    numbers
}

// The eight of segment k.
fn eight_of(flags: &[bool; 256], k: usize) -> [bool; 8]
    requires { k < 32 }
    ensures { result ≡ eight_of flags.now k }
{
    let mut eight = [false; 8];
    for i in 0..8 {
        eight[i] = flags[k * 8 + i];
    }
    eight
}

// These eight in the place of those of segment k.
fn put_eight(flags: &mut [bool; 256], k: usize, eight: [bool; 8])
    requires { (k < 32) × (length flags.old ≡ 256) }
    ensures { flags.new ≡ with_eight flags.old k eight }
{
    for i in 0..8 {
        flags[k * 8 + i] = eight[i];
    }
}

#[tactic(auto, unfolding(crate::specs::Roll::end_in))]
fn end_in(known: u8, end: u8) -> Option<u8>
    ensures { result ≡ end_in known end }
{
    (known != 0).then_some(end)
}

#[tactic(auto, unfolding(crate::specs::Roll::known_says))]
fn known_says(end: Option<u8>) -> u8
    ensures { result ≡ known_says end }
{
    of_flag(end.is_some())
}

#[tactic(auto, unfolding(crate::specs::Roll::end_says))]
fn end_says(end: Option<u8>) -> u8
    ensures { result ≡ end_says end }
{
    end.unwrap_or(0)
}

// Segment k, whose end is this number where it is known.
fn segment_in(flags: &[bool; 256], known: u8, end: u8, k: usize) -> Segment
    requires { k < 32 }
    ensures { result ≡ segment_in flags.now known end k }
{
    Segment {
        end: end_in(known, end),
        came: eight_of(flags, k),
    }
}

fn sub_table_in(roll: Roll) -> SubTable
    ensures { result ≡ sub_table_in roll }
{
    SubTable {
        table_id: roll.table_id,
        extension: roll.extension,
        transport_stream_id: roll.transport_stream_id,
        original_network_id: roll.original_network_id,
    }
}

fn refused(number: u32, place: usize) -> RollAnswer
    ensures { result ≡ roll_answer (refusing number place) }
{
    RollAnswer {
        number,
        place,
        complete: 0,
        missing: 0,
    }
}

fn progress_says(progress: Progress) -> RollAnswer
    ensures { result ≡ roll_answer (told_progress progress) }
{
    let (complete, missing) = match progress {
        Progress::Missing(missing) => (0, missing),
        Progress::Complete => (1, 0),
    };
    RollAnswer {
        number: 0,
        place: 0,
        complete,
        missing,
    }
}

fn refusal_says(refusal: Refusal) -> RollAnswer
    ensures { result ≡ roll_answer (told_refusal refusal) }
{
    match refusal {
        Refusal::Judge(judges) => refused(
            verdict::number(Err(judges)) as u32,
            verdict::place(Err(judges)),
        ),
        Refusal::NotCurrent => refused(81, 0),
        Refusal::AnotherSubTable => refused(82, 0),
        Refusal::NoSubTable => refused(83, 0),
        Refusal::SegmentEnd => refused(84, 0),
    }
}

#[unsafe(no_mangle)]
pub extern "C" fn lohitunga_roll_empty() -> Roll
    ensures { result ≡ roll_says empty_roll }
{
    Roll {
        begun: 0,
        table_id: 0,
        extension: 0,
        transport_stream_id: 0,
        original_network_id: 0,
        version: 0,
        last: 0,
        came: [0; 256],
        known: [0; 32],
        end: [0; 32],
    }
}

// "the smallest number missing, or complete", segment by segment.
#[tactic(auto, using(crate::proofs::FlatMarks::segment_of_lem, roll::proofs::Turns::scan_laws))]
fn missing(
    flags: &[bool; 256],
    known: &[u8; 32],
    end: &[u8; 32],
    last: u8,
    schedule: bool,
) -> Progress
    ensures { told_progress result ≡ answered schedule (marks_of flags.now known.now end.now) last }
{
    for k in 0..=last / 8 {
        let at = k as usize;
        let segment = segment_in(flags, known[at], end[at], at);
        if let Some(first) = gap(segment, k, last, schedule) {
            return Progress::Missing(k * 8 + first);
        }
    }
    Progress::Complete
}

#[tactic(auto, using(crate::proofs::FlatMarks::marks_kept_all), unfolding(roll::specs::Roll::asked, crate::specs::Roll::roll_in))]
fn asking(roll: &Roll) -> RollAnswer
    ensures { result ≡ roll_answer (asked (roll_in roll.now)) }
{
    if roll.begun != 0 {
        let flags = flags_in(&roll.came, true);
        let schedule = is_schedule(roll.table_id);
        return progress_says(missing(&flags, &roll.known, &roll.end, roll.last, schedule));
    }
    progress_says(Progress::Missing(0))
}

#[unsafe(no_mangle)]
pub extern "C" fn lohitunga_roll_ask(roll: &Roll) -> RollAnswer
    ensures { result ≡ roll_answer (asked (roll_in roll.now)) }
{
    asking(roll)
}

// What the numbers keep beside the marks.
#[tactic(auto, unfolding(crate::specs::Roll::roll_in))]
fn kept_in(roll: Roll) -> Kept
    ensures { result ≡ kept_of (roll_in roll) }
{
    Kept {
        begun: roll.begun != 0,
        sub_table: sub_table_in(roll),
        version: roll.version,
        last: roll.last,
    }
}

// And after a section that is taken: as it was, or the section's.
#[tactic(auto, unfolding(crate::specs::Roll::roll_in, roll::specs::Roll::continued, roll::specs::Roll::begun_with))]
fn kept_after(roll: Roll, keep: bool, section: &[u8]) -> Kept
    ensures { result ≡ kept_of (after_taking roll keep section.now) }
{
    if keep {
        return kept_in(roll);
    }
    Kept {
        begun: true,
        sub_table: sub_table_of(section),
        version: version_of(section),
        last: last_of(section),
    }
}

// The roll after a section that is taken: with what has come, or afresh.
fn taken(roll: Roll, keep: bool, section: &[u8]) -> Rolled
    requires { keep ≡ true → is_set roll.begun ≡ true }
    ensures { holds result.roll result.answer ≡ saying (after_taking roll keep section.now) }
{
    let mut flags = flags_in(&roll.came, keep);
    let mut known = known_in(&roll.known, keep);
    let mut end = ends_in(&known, &roll.end);
    let k = (number_of(section) / 8) as usize;
    let segment = segment_after(segment_in(&flags, known[k], end[k], k), section);
    put_eight(&mut flags, k, segment.came);
    known[k] = known_says(segment.end);
    end[k] = end_says(segment.end);
    let kept = kept_after(roll, keep, section);
    let sub_table = kept.sub_table;
    let schedule = is_schedule(sub_table.table_id);
    let progress = missing(&flags, &known, &end, kept.last, schedule);
    let after = Roll {
        begun: of_flag(kept.begun),
        table_id: sub_table.table_id,
        extension: sub_table.extension,
        transport_stream_id: sub_table.transport_stream_id,
        original_network_id: sub_table.original_network_id,
        version: kept.version,
        last: kept.last,
        came: numbers_of(&flags),
        known,
        end,
    };
    Rolled {
        roll: after,
        answer: progress_says(progress),
    }
}

// A section, with the roll by value. A refusal leaves the numbers as they were, also those that stand for the same roll as
// others.
fn take(roll: Roll, section: &[u8]) -> Rolled
    ensures { holds result.roll result.answer ≡ rolling roll section.now }
{
    match kept_in(roll).course_of(section) {
        Err(refusal) => Rolled {
            roll,
            answer: refusal_says(refusal),
        },
        Ok(keep) => taken(roll, keep, section),
    }
}

#[unsafe(no_mangle)]
pub extern "C" fn lohitunga_roll_take(roll: &mut Roll, section: &[u8]) -> RollAnswer
    ensures { holds roll.new result ≡ rolling roll.old section.now }
{
    let s = take(*roll, section);
    *roll = s.roll;
    s.answer
}
