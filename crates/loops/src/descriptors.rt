// A loop's descriptors have to fill it to the last byte.
ghost use Rattle.std.specs.Prelude.{◌≡◌, drop};
ghost use Rattle.verdict.specs.Verdict.{told};
ghost use Rattle.loops.specs.Descriptors.{descriptors};

use crate::walk::step_at;
use verdict::Verdict;

// The loop's bytes from the place `at` on.
#[tactic(auto, using(crate::proofs::Loops::body_on, crate::proofs::Loops::loop_ends, crate::proofs::Loops::past_ends,))]
pub fn judge_descriptors(bytes: &[u8], at: usize) -> Verdict
    ensures { told result ≡ (descriptors at (drop at bytes.now)).ends }
{
    let mut p = at;
    while p < bytes.len() {
        match step_at(bytes, p)? {
            Some(d) => p = d.start + d.size,
            None => break,
        }
    }
    Ok(())
}
