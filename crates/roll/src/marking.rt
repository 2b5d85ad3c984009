// One segment of a roll's marks.
ghost use Rattle.std.specs.Prelude.{◌≡◌};
ghost use Rattle.roll.specs.Marks.{blank, unmarked, with_mark};
ghost use Rattle.roll.specs.Segments.{ending_at};

use crate::{Marks, Segment};

// A segment with this end, of which nothing has come.
#[tactic(auto, unfolding(crate::specs::Marks::blank))]
fn blank_until(end: Option<u8>) -> Segment
    ensures { result ≡ blank end }
{
    Segment {
        end,
        came: [false; 8],
    }
}

// No number has come.
#[tactic(auto, unfolding(crate::specs::Marks::unmarked))]
pub fn no_marks() -> Marks
    ensures { result ≡ unmarked }
{
    Marks {
        segments: [blank_until(None); 32],
    }
}

// The same segment, and this number of it has come.
#[tactic(auto, unfolding(crate::specs::Marks::with_mark))]
pub fn with_mark(segment: Segment, number: u8) -> Segment
    ensures { result ≡ with_mark segment number }
{
    let at = (number % 8) as usize;
    let mut after = segment;
    after.came[at] = true;
    after
}

// "A segment end that changes within one version empties that segment"
#[tactic(auto, unfolding(crate::specs::Segments::ending_by))]
pub fn ending_at(segment: Segment, end: u8) -> Segment
    ensures { result ≡ ending_at segment end }
{
    if segment.end == Some(end) {
        segment
    } else {
        blank_until(Some(end))
    }
}
