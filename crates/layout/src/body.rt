// The tag and the length in front of a body. The body is what follows the first two bytes.
ghost use Rattle.std.specs.Prelude.{◌≡◌, length, drop};
ghost use Rattle.layout.specs.Refusal.{lent, told};
ghost use Rattle.layout.specs.Body.{framed, fixed};

use super::Refusal;
use wire::parts::after;
use wire::wide;

// 61, and 62 for the length byte.
#[tactic(auto, using(crate::proofs::Frames::frames))]
pub fn any(s: &[u8], tag: u8) -> Result<&[u8], Refusal>
    ensures { told (lent result) ≡ framed s.now tag }
{
    let [t, ..] = s else {
        return Err(Refusal::WrongTag);
    };
    if *t != tag {
        return Err(Refusal::WrongTag);
    }
    let [_, n, body @ ..] = s else {
        return Err(Refusal::DoesNotFit);
    };
    if wide(*n) == body.len() {
        Ok(body)
    } else {
        Err(Refusal::DoesNotFit)
    }
}

// A body of n bytes.
#[tactic(auto, unfolding(crate::specs::Body::fixed))]
pub fn sized(s: &[u8], tag: u8, n: usize) -> Result<&[u8], Refusal>
    ensures { told (lent result) ≡ fixed s.now tag n }
{
    let body = any(s, tag)?;
    if body.len() == n {
        Ok(body)
    } else {
        Err(Refusal::DoesNotFit)
    }
}

// How many bytes stand behind the first two, of any bytes.
pub fn size(s: &[u8]) -> usize
    ensures { result ≡ length (drop 2 s.now) }
{
    after(s, 2).len()
}
