// Bytes moved within one room. In all that follow: copies room[from..from+n], as it was before, to room[to..to+n];
// room's other bytes stay.
ghost use Rattle.std.specs.Prelude.{◌≡◌, ◌+◌, ◌≤◌, length, drop};
ghost use Rattle.std.proofs.Math.Seq.{paste};

use crate::singly;

// At most 32 bytes. They are all read before any of them is written.
#[tactic(auto, using(crate::proofs::Moves::through_held))]
pub fn few(room: &mut [u8], from: usize, n: usize, to: usize)
    requires { (n ≤ 32) × (from + n ≤ length room.old) × (to + n ≤ length room.old) }
    ensures { room.new ≡ paste room.old to (drop from room.old) n }
{
    let mut bytes = [0u8; 32];
    singly(room, from, n, &mut bytes, 0);
    singly(&bytes, 0, n, room, to);
}

// Down, the first block first. The last one ends where the bytes end and may begin in the block before it, so that it is
// read before any is written.
#[tactic(auto, using(crate::proofs::Moves::down_on))]
pub fn down(room: &mut [u8], from: usize, n: usize, to: usize)
    requires { (32 ≤ n) × (to ≤ from) × (from + n ≤ length room.old) }
    ensures { room.new ≡ paste room.old to (drop from room.old) n }
{
    let mut last = [0u8; 32];
    singly(room, from + (n - 32), 32, &mut last, 0);
    for i in (0..n - 32).step_by(32) {
        few(room, from + i, 32, to + i);
    }
    singly(&last, 0, 32, room, to + (n - 32));
}

// Up, the last block first, and so the first one is read before any is written.
#[tactic(auto, using(crate::proofs::Moves::up_on))]
pub fn up(room: &mut [u8], from: usize, n: usize, to: usize)
    requires { (32 ≤ n) × (from ≤ to) × (to + n ≤ length room.old) }
    ensures { room.new ≡ paste room.old to (drop from room.old) n }
{
    let mut first = [0u8; 32];
    singly(room, from, 32, &mut first, 0);
    let mut i = n;
    while 32 < i {
        i -= 32;
        few(room, from + i, 32, to + i);
    }
    singly(&first, 0, 32, room, to);
}
