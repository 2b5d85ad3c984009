// Entries have to fill their room to the last byte, and each entry's descriptors its loop.
ghost use Rattle.std.specs.Prelude.{◌≡◌, ◌≤◌, drop};
ghost use Rattle.verdict.specs.Verdict.{told};
ghost use Rattle.section.specs.Entries.{entries};

use loops::descriptors::judge_descriptors;
use verdict::{Refusal, Verdict};

// The entries' bytes from the place `at` on; an entry has `fixed` bytes before its loop.
#[tactic(auto, using(crate::proofs::EntryLoops::entry_laws))]
pub fn judge_entries(bytes: &[u8], fixed: usize, at: usize) -> Verdict
    requires { 2 ≤ fixed }
    ensures { told result ≡ (entries fixed at (drop at bytes.now)).ends }
{
    let end = bytes.len();
    let mut p = at;
    while p < end {
        if end - p < fixed {
            return Err(Refusal::BytesLeft(p));
        }
        let start = p + fixed;
        let length_place = p + (fixed - 2);
        let size = wire::length12(bytes[length_place], bytes[length_place + 1]);
        if end - start < size {
            return Err(Refusal::LoopPast(length_place));
        }
        let next = start + size;
        judge_descriptors(&bytes[..next], start)?;
        p = next;
    }
    Ok(())
}
