// Bytes that move between the packet, the hold and the out room.
ghost use Rattle.std.specs.Prelude.{◌≡◌, ◌+◌, ◌≤◌, length};
ghost use Rattle.copy.specs.Laid.{laid};

use copy::copy;

// Copies all of part to room[at..]; the room's other bytes stay.
#[tactic(auto, using(crate::proofs::Laying::copied_all))]
pub fn lay(part: &[u8], room: &mut [u8], at: usize)
    requires { at + length part.now ≤ length room.old }
    ensures { room.new ≡ laid room.old at part.now }
{
    copy(part, 0, part.len(), room, at);
}

// The same of a part that is mostly N bytes long: a copy of a size that the compiler knows takes no loop. For each N it is
// called at one place alone, so that the compiler makes it part of its caller.
#[tactic(auto, using(crate::proofs::Laying::copied_all))]
pub fn lay_mostly<const N: usize>(part: &[u8], room: &mut [u8], at: usize)
    requires { at + length part.now ≤ length room.old }
    ensures { room.new ≡ laid room.old at part.now }
{
    if part.len() == N {
        copy(part, 0, N, room, at);
        return;
    }
    copy(part, 0, part.len(), room, at);
}
