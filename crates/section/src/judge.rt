// Document 01, "Judging a section": any bytes in, a verdict out.
ghost use Rattle.std.specs.Prelude.{◌≡◌, ◌≤◌, drop};
ghost use Rattle.verdict.specs.Verdict.{told};
ghost use Rattle.tables.specs.Tables.{FixedTwo};
ghost use Rattle.section.specs.Reading.{fills, leaves_room, one_loop, second_loop, two_loops, inside, body};
ghost use Rattle.section.specs.Reading.{wrong_syntax, length_outside, size_differs, crc_fails, above_last, header, judged};

use crate::entries::judge_entries;
use loops::descriptors::judge_descriptors;
use tables::{Row, table_of};
use verdict::{Refusal, Verdict};

// The section before its CRC_32, all of it where the table has none. In what follows this is `bytes`: places in it are
// places in the section.
#[tactic(auto, using(crate::proofs::Readings::body_crc, crate::proofs::Readings::body_all))]
pub fn before_crc(row: Row, section: &[u8]) -> &[u8]
    ensures { result.now ≡ body row section.now }
{
    if row.crc != 1 {
        return section;
    }
    &section[..wire::less(section.len(), 4)]
}

#[tactic(auto, using(crate::proofs::Readings::fills_laws))]
fn judge_fills(bytes: &[u8], at: usize) -> Verdict
    ensures { told result ≡ fills at (drop at bytes.now) }
{
    let left = wire::less(bytes.len(), at);
    let size = 2 + wire::length12_at(bytes, at);
    if left < size {
        return Err(Refusal::LoopPast(at));
    }
    if size < left {
        return Err(Refusal::BytesLeft(at + size));
    }
    Ok(())
}

#[tactic(auto, using(crate::proofs::Readings::room_past, crate::proofs::Readings::room_just))]
fn judge_room(bytes: &[u8], at: usize) -> Verdict
    ensures { told result ≡ leaves_room at (drop at bytes.now) }
{
    if wire::less(bytes.len(), at) < 2 + wire::length12_at(bytes, at) + 2 {
        return Err(Refusal::LoopPast(at));
    }
    Ok(())
}

#[tactic(auto, using(crate::proofs::Readings::one_loop_ends, verdict::proofs::FirstFault::fault_first))]
fn judge_one_loop(bytes: &[u8], at: usize) -> Verdict
    ensures { told result ≡ (one_loop at (drop at bytes.now)).ends }
{
    judge_fills(bytes, at)?;
    judge_descriptors(bytes, at + 2)
}

// What stands behind the top loop, whose end is the place `at`.
#[tactic(auto, using(crate::proofs::Readings::second_loop_ends, verdict::proofs::FirstFault::fault_first))]
fn judge_second(bytes: &[u8], fixed: usize, at: usize) -> Verdict
    requires { 2 ≤ fixed }
    ensures { told result ≡ (second_loop fixed at (drop at bytes.now)).ends }
{
    judge_fills(bytes, at)?;
    judge_entries(bytes, fixed, at + 2)
}

#[tactic(auto, using(crate::proofs::Readings::two_loops_ends, verdict::proofs::FirstFault::fault_first))]
fn judge_two_loops(bytes: &[u8], fixed: usize, at: usize) -> Verdict
    requires { 2 ≤ fixed }
    ensures { told result ≡ (two_loops fixed at (drop at bytes.now)).ends }
{
    judge_room(bytes, at)?;
    let end = at + (2 + wire::length12_at(bytes, at));
    judge_descriptors(&bytes[..end], at + 2)?;
    judge_second(bytes, fixed, end)
}

#[tactic(auto, using(crate::proofs::Readings::inside_laws))]
fn judge_inside(row: Row, bytes: &[u8]) -> Verdict
    requires { FixedTwo row.fixed }
    ensures { told result ≡ (inside row row.before (drop row.before bytes.now)).ends }
{
    match (row.top, row.fixed) {
        (1, 0) => judge_one_loop(bytes, row.before),
        (1, fixed) => judge_two_loops(bytes, fixed, row.before),
        (_, 0) => Ok(()),
        (_, fixed) => judge_entries(bytes, fixed, row.before),
    }
}

#[tactic(auto, unfolding(crate::specs::Reading::wrong_syntax))]
fn wrong_syntax(row: Row, section: &[u8]) -> bool
    ensures { result ≡ wrong_syntax row section.now }
{
    wire::wide(wire::numbers::byte_at(section, 1)) / 128 != row.syntax
}

#[tactic(auto, unfolding(crate::specs::Reading::length_outside))]
fn length_outside(row: Row, section: &[u8]) -> bool
    ensures { result ≡ length_outside row section.now }
{
    let section_length = wire::length12_at(section, 1);
    section_length < row.least || row.most < section_length
}

#[tactic(auto, unfolding(crate::specs::Reading::size_differs))]
fn size_differs(section: &[u8]) -> bool
    ensures { result ≡ size_differs section.now }
{
    section.len() != 3 + wire::length12_at(section, 1)
}

#[tactic(auto, unfolding(crate::specs::Reading::crc_fails))]
fn crc_fails(row: Row, section: &[u8]) -> bool
    ensures { result ≡ crc_fails row section.now }
{
    row.crc == 1 && crc::crc32(section) != 0
}

#[tactic(auto, unfolding(crate::specs::Reading::above_last))]
fn above_last(row: Row, section: &[u8]) -> bool
    ensures { result ≡ above_last row section.now }
{
    row.syntax == 1 && wire::numbers::byte_at(section, 7) < wire::numbers::byte_at(section, 6)
}

#[tactic(auto, unfolding(crate::specs::Reading::header))]
fn judge_header(row: Row, section: &[u8]) -> Verdict
    ensures { told result ≡ header row section.now }
{
    if wrong_syntax(row, section) {
        return Err(Refusal::WrongSyntax);
    }
    if length_outside(row, section) {
        return Err(Refusal::LengthOutside);
    }
    if size_differs(section) {
        return Err(Refusal::SizeDiffers);
    }
    if crc_fails(row, section) {
        return Err(Refusal::CrcFails);
    }
    if above_last(row, section) {
        return Err(Refusal::NumberAboveLast);
    }
    Ok(())
}

// The judge.
#[tactic(auto, using(crate::proofs::Readings::judged_laws), unfolding(crate::specs::Reading::opening))]
pub fn judge(section: &[u8]) -> Verdict
    ensures { told result ≡ judged section.now }
{
    if section.len() < 3 {
        return Err(Refusal::TooShort);
    }
    let table = table_of(section[0]).ok_or(Refusal::UnknownTable)?;
    let row = table.row();
    judge_header(row, section)?;
    judge_inside(row, before_crc(row, section))
}
