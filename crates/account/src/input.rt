// All of standard input.
ghost use Rattle.std.specs.Prelude.{◌≡◌, length};
ghost use Rattle.account.specs.Input.{CameTo};

use crate::progress::Progress;
use crate::reading::Source;
use crate::{progress, reading};

// Where reading stands when it is over: a read behind what is left, and what the progress becomes by it, again and again. A
// proved loop has to end, and nothing says that an input does: so this one makes more turns than any run uses up.
pub fn account_of(source: &mut Source, buf: &mut [u8], hold: &mut [u8], out: &mut [u8]) -> Progress
    requires { (length buf.old ≡ 65536) × (length hold.old ≡ 4096) × (length out.old ≡ 4280) }
    ensures { CameTo hold.old out.old result }
{
    let mut p = progress::start();
    for _ in 0..u64::MAX {
        if progress::is_over(p) {
            return p;
        }
        let came = reading::read_behind(source, buf, progress::left_of(p));
        p = progress::heard(p, came, buf, hold, out);
    }
    p
}
