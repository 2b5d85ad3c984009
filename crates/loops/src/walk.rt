// A walk over one loop of descriptors.
ghost use Rattle.std.specs.Prelude.{◌≡◌};
ghost use Rattle.verdict.specs.declared.Refusal.TheVariants.{DescriptorPast};
ghost use Rattle.loops.specs.Descriptors.{step_at, told_step, Steps, descriptor_of};

use verdict::Refusal;

// A descriptor by its body: the tag, the place of the body and its size.
#[derive(Clone, Copy)]
pub struct Body {
    pub tag: u8,
    pub start: usize,
    pub size: usize,
}

// 9: no descriptor can be read at this place.
#[derive(Clone, Copy)]
pub struct Cut(pub usize);

impl From<Cut> for Refusal {
    ghost from_gives = { λ cut refusal. refusal ≡ DescriptorPast cut.0 };

    fn from(cut: Cut) -> Refusal {
        Refusal::DescriptorPast(cut.0)
    }
}

// What stands at a place of a loop: a descriptor, or the end.
pub type Step = Result<Option<Body>, Cut>;

// What stands at the place `at` of a loop's bytes, which end where the loop ends.
#[tactic(auto, using(crate::proofs::Loops::step_end, crate::proofs::Loops::step_cut, crate::proofs::Loops::step_whole,))]
pub fn step_at(bytes: &[u8], at: usize) -> Step
    ensures { told_step result ≡ step_at bytes.now at }
{
    let n = bytes.len();
    if at == n {
        return Ok(None);
    }
    if n <= at || n - at < 2 {
        return Err(Cut(at));
    }
    let size = wire::wide(bytes[at + 1]);
    if n - at - 2 < size {
        return Err(Cut(at));
    }
    Ok(Some(Body {
        tag: bytes[at],
        start: at + 2,
        size,
    }))
}

// A step, and the place at which the walk then stands.
#[derive(Clone, Copy)]
pub struct Stepped {
    pub step: Step,
    pub at: usize,
}

#[tactic(auto, using(crate::proofs::Loops::body_on))]
pub fn step_from(bytes: &[u8], at: usize) -> Stepped
    ensures { Steps bytes.now at result.step result.at }
{
    let step = step_at(bytes, at);
    let at = match step {
        Ok(Some(d)) => d.start + d.size,
        _ => at,
    };
    Stepped { step, at }
}

// The descriptor that a step gave, from its tag on, as a part of the loop's bytes; nothing where it gave none.
pub fn descriptor<'a>(bytes: &'a [u8], step: Step) -> &'a [u8]
    ensures { result.now ≡ descriptor_of bytes.now (told_step step) }
{
    match step {
        Ok(Some(d)) => {
            let from = wire::less(d.start, 2);
            if bytes.len() <= d.size {
                return wire::parts::part(bytes, from, d.size);
            }
            wire::parts::part(bytes, from, d.size + 2)
        }
        _ => &bytes[..0],
    }
}

// A walk over one loop: the loop's bytes, and the place in them at which the walk stands.
#[derive(Clone, Copy)]
pub struct Walk<'a> {
    pub bytes: &'a [u8],
    pub at: usize,
}

// A walk that stands at the loop's first byte.
pub fn over<'a>(bytes: &'a [u8]) -> Walk<'a>
    ensures { (result.bytes ≡ bytes.entry) × (result.at ≡ 0) }
{
    Walk { bytes, at: 0 }
}

// Gives what stands at the walk's place and moves on past a descriptor; at the end, and where none can be read, it stays.
pub fn next<'s, 'a>(walk: &'s mut Walk<'a>) -> Step
    ensures { Steps walk.old.bytes.now walk.old.at result walk.new.at
        × (walk.new.bytes ≡ walk.old.bytes) }
{
    let stepped = step_from(walk.bytes, walk.at);
    walk.at = stepped.at;
    stepped.step
}
