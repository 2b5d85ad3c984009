// The smallest number missing, segment by segment; of schedules and of all other tables.
ghost use Rattle.std.specs.Prelude.{◌<◌, ◌≤◌, ◌≡◌, IfSome};
ghost use Rattle.roll.specs.Answer.{told_progress};
ghost use Rattle.roll.specs.Roll.{answered};
ghost use Rattle.roll.specs.Segments.{is_schedule, counting};
ghost use Rattle.roll.specs.Gaps.{all_came, first_gap, gap_of, told_gap, wanted_of};

use crate::{Marks, Progress, Segment};

// "table_id 0x50 to 0x6F"
#[tactic(auto, unfolding(crate::specs::Segments::is_schedule))]
pub fn is_schedule(id: u8) -> bool
    ensures { result ≡ is_schedule id }
{
    0x50 <= id && id <= 0x6F
}

// "outside its segment or above the last number counts as unknown"
#[tactic(auto, unfolding(crate::specs::Segments::counting))]
fn counting_end(end: Option<u8>, segment: u8, last: u8) -> Option<u8>
    ensures { result ≡ counting last segment end }
{
    match end {
        Some(e) if e / 8 == segment && e <= last => end,
        _ => None,
    }
}

// How many numbers of a segment must come, from its first on: of a schedule those up to the segment's end, and 0 where that
// is unknown; else those up to the last number, where it stands in this segment.
#[tactic(auto, unfolding(crate::specs::Gaps::wanted_of, crate::specs::Gaps::up_to))]
fn wanted(end: Option<u8>, segment: u8, last: u8, schedule: bool) -> u8
    ensures { result ≡ wanted_of schedule last segment end }
{
    if schedule {
        return match counting_end(end, segment, last) {
            None => 0,
            Some(e) => e % 8 + 1,
        };
    }
    if last / 8 == segment {
        return last % 8 + 1;
    }
    8
}

// All eight have come: most segments of a roll that fills. It looks at each, since so the compiler makes it fast.
#[tactic(auto, using(crate::proofs::Gaps::all_start, crate::proofs::Gaps::all_next))]
fn all_come(came: [bool; 8]) -> bool
    ensures { result ≡ all_came came 8 }
{
    let mut all = true;
    for i in 0..8 {
        all &= came[i];
    }
    all
}

// The first of so many numbers of a segment that has not come, counted from its first.
#[tactic(auto, using(crate::proofs::Gaps::gap_on, crate::proofs::Gaps::gap_here, crate::proofs::Gaps::gap_past))]
fn first_gap(came: [bool; 8], count: u8) -> Option<u8>
    requires { count ≤ 8 }
    ensures is { told_gap result ≡ first_gap came count 0 }
    ensures few { IfSome result (λ gap. gap < 8) }
{
    for i in 0..count {
        if !came[i as usize] {
            return Some(i);
        }
    }
    None
}

// The first number of a segment that is missing, counted from its first.
#[tactic(auto, using(crate::proofs::Gaps::gap_laws), unfolding(crate::specs::Gaps::gap_of))]
pub fn gap(segment: Segment, at: u8, last: u8, schedule: bool) -> Option<u8>
    ensures is { told_gap result ≡ gap_of schedule last at segment }
    ensures few { IfSome result (λ gap. gap < 8) }
{
    let count = wanted(segment.end, at, last, schedule);
    if count == 0 {
        return Some(0);
    }
    if all_come(segment.came) {
        return None;
    }
    first_gap(segment.came, count)
}

// "the smallest number missing, or complete"
#[tactic(auto, using(crate::proofs::Turns::scan_laws), unfolding(crate::specs::Marks::segment_at))]
pub fn missing(marks: Marks, last: u8, schedule: bool) -> Progress
    ensures { told_progress result ≡ answered schedule marks last }
{
    for k in 0..=last / 8 {
        if let Some(first) = gap(marks.segments[k as usize], k, last, schedule) {
            return Progress::Missing(k * 8 + first);
        }
    }
    Progress::Complete
}
