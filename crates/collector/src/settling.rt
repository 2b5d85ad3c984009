// What becomes of a whole section: the judge is asked, and what it accepts goes to the out room.
ghost use Rattle.std.specs.Prelude.{◌≡◌, ◌+◌, ◌≤◌, ◌++◌, length, take};
ghost use Rattle.verdict.specs.Verdict.{told};
ghost use Rattle.section.specs.Reading.{judged};
ghost use Rattle.collector.specs.Inner.Settling.{handedOut, window_at, laid_of};

use crate::bytes;
use section::judge::judge;
use verdict::Verdict;

// The section, judged where it lies, goes to out[at..] if it is accepted.
pub fn settle(section: &[u8], out: &mut [u8], at: usize) -> Verdict
    requires { at + length section.now ≤ length out.old }
    ensures value { told result ≡ judged section.now }
    ensures out_after { out.new ≡ handedOut out.old at section.now }
{
    judge(section)?;
    bytes::lay(section, out, at);
    Ok(())
}

// So many bytes of the hold are put back behind each section that is judged in it, more than a packet has: a copy of a size
// that the compiler knows takes no loop.
const WINDOW: usize = 224;

// Where the window begins in a room of this size, so that it has what a packet lays from n on: at a multiple of 32, so that
// in a room that begins at one no block of the copy lies across two lines of the processor's cache, or where it ends with
// the room.
fn window_at(n: usize, size: usize) -> usize
    requires { 224 ≤ size }
    ensures { result ≡ window_at n size }
{
    let at = n - n % 32;
    at.min(size - WINDOW)
}

// How many bytes of the packet are laid behind what is in hand: it has left, of which the first k end the section, and the
// window has this room. All of them where it can, for these are mostly as many, and not just those k.
fn laid_of(k: usize, left: usize, room: usize) -> usize
    ensures { result ≡ laid_of k left room }
{
    if left <= room { left } else { k }
}

// The section whose first n bytes are in hand and whose last k are the first of rest, which is the packet from them on. For
// the judge its end is laid behind what is in hand, and the bytes that the hold had there are put back.
pub fn settle_held(hold: &mut [u8], n: usize, rest: &[u8], k: usize, out: &mut [u8]) -> Verdict
    requires { (4096 ≤ length hold.old) × (n + k ≤ length hold.old) × (k ≤ length rest.now)
        × (length rest.now ≤ 188) × (n + k ≤ length out.old) }
    ensures value { told result ≡ judged (take n hold.old ++ take k rest.now) }
    ensures hold_unchanged { hold.new ≡ hold.old }
    ensures out_after { out.new ≡ handedOut out.old 0 (take n hold.old ++ take k rest.now) }
{
    let at = window_at(n, hold.len());
    let mut window = [0u8; WINDOW];
    bytes::lay(&hold[at..at + WINDOW], &mut window, 0);
    let laid = laid_of(k, rest.len(), at + WINDOW - n);
    bytes::lay_mostly::<183>(&rest[..laid], hold, n);
    let verdict = settle(&hold[..n + k], out, 0);
    bytes::lay(&window, hold, at);
    verdict
}
