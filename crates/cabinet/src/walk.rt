// A step of the walk over one loop. The caller keeps the place.
ghost use Rattle.std.specs.Prelude.{◌≡◌};
ghost use Rattle.loops.specs.Descriptors.{step_at};
ghost use Rattle.cabinet.specs.Walk.{walk_says};

use loops::walk::step_from;

#[repr(C)]
#[derive(Clone, Copy, Default)]
pub struct WalkAnswer {
    pub number: u32,
    pub place: usize,
    // 1 for a descriptor.
    pub descriptor: u32,
    pub tag: u8,
    // The body's place and size.
    pub start: usize,
    pub size: usize,
    // Where the walk then stands.
    pub next: usize,
}

#[unsafe(no_mangle)]
pub extern "C" fn lohitunga_walk(bytes: &[u8], at: usize) -> WalkAnswer
    ensures { result ≡ walk_says at (step_at bytes.now at) }
{
    let stepped = step_from(bytes, at);
    let none = WalkAnswer {
        next: stepped.at,
        ..WalkAnswer::default()
    };
    match stepped.step {
        Ok(Some(d)) => WalkAnswer {
            descriptor: 1,
            tag: d.tag,
            start: d.start,
            size: d.size,
            ..none
        },
        Ok(None) => none,
        Err(cut) => WalkAnswer {
            number: 9,
            place: cut.0,
            ..none
        },
    }
}
