// Bytes copied from one place to another, and moved within one room.
#![tactic(auto)]

ghost use Rattle.std.specs.Prelude.{◌≡◌, ◌+◌, ◌≤◌, ◌<◌, length, drop, ltb};
ghost use Rattle.std.proofs.Math.Seq.{paste};
ghost use Rattle.copy.specs.Copy.{copies, copied};
ghost use Rattle.copy.specs.Move.{moves_down, moved_down, moves_up, movedUp};

mod within;

// n bytes from a place on are more than there are, of so many.
pub fn lacks(all: usize, at: usize, n: usize) -> bool
    ensures { result ≡ ltb all (at + n) }
{
    all < n || all - n < at
}

// In all that follow: copies src[from..from+n] to dst[at..at+n]; dst's other bytes stay.
#[tactic(auto, using(crate::proofs::Blocks::one_more))]
fn singly(src: &[u8], from: usize, n: usize, dst: &mut [u8], at: usize)
    requires { (from + n ≤ length src.now) × (at + n ≤ length dst.old) }
    ensures { dst.new ≡ paste dst.old at (drop from src.now) n }
{
    for i in 0..n {
        dst[at + i] = src[from + i];
    }
}

// A block of N. It is all read before any of it is written, so that the compiler may move it whole.
#[tactic(auto, using(crate::proofs::Moves::through_held))]
fn block<const N: usize>(src: &[u8], from: usize, dst: &mut [u8], at: usize)
    requires { (from + N ≤ length src.now) × (at + N ≤ length dst.old) }
    ensures { dst.new ≡ paste dst.old at (drop from src.now) N }
{
    let mut bytes = [0u8; N];
    singly(src, from, N, &mut bytes, 0);
    singly(&bytes, 0, N, dst, at);
}

// The last block ends where the bytes end, and may begin in the block before it.
#[tactic(auto, using(crate::proofs::Blocks::block_more))]
fn in_blocks<const N: usize>(src: &[u8], from: usize, n: usize, dst: &mut [u8], at: usize)
    requires { (from + n ≤ length src.now) × (at + n ≤ length dst.old) × (0 < N) × (N ≤ n) }
    ensures { dst.new ≡ paste dst.old at (drop from src.now) n }
{
    for i in (0..n - N).step_by(N) {
        block::<N>(src, from + i, dst, at + i);
    }
    block::<N>(src, from + (n - N), dst, at + (n - N));
}

// Where src has the bytes and dst has room for them; otherwise dst stays. It tells which.
#[tactic(auto, unfolding(crate::specs::Copy::copies, crate::specs::Copy::copied))]
fn copy_by<const N: usize>(src: &[u8], from: usize, n: usize, dst: &mut [u8], at: usize) -> bool
    requires { 0 < N }
    ensures { (result ≡ copies src.now from n dst.old at)
        × (dst.new ≡ copied src.now from n dst.old at) }
{
    if lacks(src.len(), from, n) || lacks(dst.len(), at, n) {
        return false;
    }
    if n < N {
        singly(src, from, n, dst, at);
    } else {
        in_blocks::<N>(src, from, n, dst, at);
    }
    true
}

// For runs that are mostly long.
pub fn copy(src: &[u8], from: usize, n: usize, dst: &mut [u8], at: usize) -> bool
    ensures { (result ≡ copies src.now from n dst.old at)
        × (dst.new ≡ copied src.now from n dst.old at) }
{
    copy_by::<32>(src, from, n, dst, at)
}

// The same, for runs that are mostly under 32 bytes.
pub fn copy_few(src: &[u8], from: usize, n: usize, dst: &mut [u8], at: usize) -> bool
    ensures { (result ≡ copies src.now from n dst.old at)
        × (dst.new ≡ copied src.now from n dst.old at) }
{
    copy_by::<8>(src, from, n, dst, at)
}

// Copies room[from..from+n], as it was before, down to room[to..to+n], to being no higher than from, where room has the bytes;
// otherwise room stays. It tells which.
#[tactic(auto, unfolding(crate::specs::Move::moves_down, crate::specs::Move::moved_down))]
pub fn move_down(room: &mut [u8], from: usize, n: usize, to: usize) -> bool
    ensures { (result ≡ moves_down room.old from n to) × (room.new ≡ moved_down room.old from n to) }
{
    if from < to || lacks(room.len(), from, n) {
        return false;
    }
    if n < 32 {
        within::few(room, from, n, to);
    } else {
        within::down(room, from, n, to);
    }
    true
}

// The same upwards, to being no lower than from, where room has place for them.
#[tactic(auto, unfolding(crate::specs::Move::moves_up, crate::specs::Move::movedUp))]
pub fn move_up(room: &mut [u8], from: usize, n: usize, to: usize) -> bool
    ensures { (result ≡ moves_up room.old from n to) × (room.new ≡ movedUp room.old from n to) }
{
    if to < from || lacks(room.len(), to, n) {
        return false;
    }
    if n < 32 {
        within::few(room, from, n, to);
    } else {
        within::up(room, from, n, to);
    }
    true
}
