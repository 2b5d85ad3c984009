// A step of the walk over one loop. The caller keeps the place.
ghost use Rattle.std.specs.Prelude.{◌≡◌};
ghost use Rattle.loops.specs.Descriptors.{step_at};
ghost use Rattle.cabinet.specs.Walk.{walk_says};

use cabinet::walk::WalkAnswer;

#[unsafe(no_mangle)]
pub extern "C" fn lohitunga_walk(bytes: &[u8], at: usize) -> WalkAnswer
    ensures { result ≡ walk_says at (step_at bytes.now at) }
{
    cabinet::walk::lohitunga_walk(bytes, at)
}
