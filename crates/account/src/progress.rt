// Where reading stands: the whole packets of what has come are entered, and what is left goes to the front for the next
// read.
ghost use Rattle.std.specs.Prelude.{◌≡◌, ◌+◌, ◌<◌, ◌≤◌, length};
ghost use Rattle.account.specs.Entered.{first_pid, kept_as};
ghost use Rattle.account.specs.Heard.{progress_as, start_progress, to_front, account_for, state_as, absorbed, with_piece, finished, heard_as, Fits, is_over, ended_of};
ghost use Rattle.account.specs.declared.progress.Stage.TheVariants.{Reading};

use crate::reading::{Got, OneRead};
use crate::tally::Account;
use crate::{reading, tally};

// No account: a read failed, or none met the end of the input.
#[derive(Clone, Copy)]
pub struct Failed;

// Whether reading goes on, met the end of the input, or failed.
#[derive(Clone, Copy, PartialEq, Eq)]
pub enum Stage {
    Reading,
    Over,
    Failed,
}

// How many bytes at the front of the buffer are not entered yet, the account, none before the first packet, and the stage.
// Only `start` and `heard` hand one out, so that reading can be over only because a read said so.
#[derive(Clone, Copy)]
pub struct Progress {
    left: usize,
    account: Option<Account>,
    stage: Stage,
}

// Reading goes on.
fn going_on(left: usize, account: Option<Account>) -> Progress
    ensures { result ≡ progress_as left account Reading }
{
    Progress {
        left,
        account,
        stage: Stage::Reading,
    }
}

// Before the first read.
pub fn start() -> Progress
    ensures { result ≡ start_progress }
{
    going_on(0, None)
}

// The PID of the first 188 bytes, whatever they are.
fn first_pid(bytes: &[u8]) -> u16
    requires { 188 ≤ length bytes.now }
    ensures { result ≡ first_pid bytes.now }
{
    (bytes[1] % 32) as u16 * 256 + bytes[2] as u16
}

// The n bytes from index from on go to the front, where none of them stands.
#[tactic(auto, unfolding(copy::specs::Move::moved_down, copy::specs::Move::moves_down))]
fn to_front(buf: &mut [u8], from: usize, n: usize)
    requires { (from + n ≤ length buf.old) × (n ≤ from) }
    ensures { buf.new ≡ to_front buf.old from n }
{
    copy::move_down(buf, from, n, 0);
}

// The account so far, or a fresh one where the first packet has just come.
fn account_for(p: Progress, bytes: &[u8]) -> Account
    requires { 188 ≤ length bytes.now }
    ensures { result ≡ account_for p bytes.now }
{
    match p.account {
        Some(a) => a,
        None => tally::fresh(first_pid(bytes)),
    }
}

// The buffer's first n bytes have come, of which the first are those that were left.
fn absorb(p: Progress, buf: &mut [u8], hold: &mut [u8], out: &mut [u8], n: usize) -> Progress
    requires { n ≤ length buf.old }
    ensures { state_as result buf.new hold.new out.new
        ≡ absorbed n (state_as p buf.old hold.old out.old) }
{
    if n < 188 {
        return going_on(n, p.account);
    }
    let a = account_for(p, buf);
    let account = tally::enter_all(a, hold, out, buf, n);
    let left = n % 188;
    to_front(buf, n - left, left);
    going_on(left, Some(account))
}

// "A last piece under 188 bytes counts as refused (41)"
fn last_piece(a: Account, left: usize, buf: &[u8], hold: &mut [u8], out: &mut [u8]) -> Account
    requires { left ≤ length buf.now }
    ensures { kept_as result hold.new out.new
        ≡ with_piece left buf.now (kept_as a hold.old out.old) }
{
    if left == 0 {
        return a;
    }
    tally::enter(a, hold, out, &buf[..left])
}

// The input is at its end.
fn finish(p: Progress, buf: &[u8], hold: &mut [u8], out: &mut [u8]) -> Progress
    requires { p.left ≤ length buf.now }
    ensures { state_as result buf.now hold.new out.new
        ≡ finished (state_as p buf.now hold.old out.old) }
{
    let account = match p.account {
        Some(a) => Some(last_piece(a, p.left, buf, hold, out)),
        None => None,
    };
    Progress {
        account,
        stage: Stage::Over,
        ..p
    }
}

// What a read, made to the index left of the buffer, makes of the progress, the buffer and the rooms.
pub fn heard(
    p: Progress,
    came: OneRead,
    buf: &mut [u8],
    hold: &mut [u8],
    out: &mut [u8],
) -> Progress
    requires { Fits p.left came.got (length buf.old) }
    ensures { state_as result buf.new hold.new out.new
        ≡ heard_as came.got (state_as p buf.old hold.old out.old) }
{
    match reading::got_of(came) {
        Got::Bytes(n) => absorb(p, buf, hold, out, p.left + n),
        Got::Again => p,
        Got::End => finish(p, buf, hold, out),
        Got::Failed => Progress {
            stage: Stage::Failed,
            ..p
        },
    }
}

// Where the next read goes.
pub fn left_of(p: Progress) -> usize
    ensures { result ≡ p.left }
{
    p.left
}

pub fn is_over(p: Progress) -> bool
    ensures { result ≡ is_over p.stage }
{
    p.stage != Stage::Reading
}

// "input under 188 bytes prints only `no packets`"
pub fn ending_of(p: Progress) -> Result<Option<Account>, Failed>
    ensures { result ≡ ended_of p }
{
    match p.stage {
        Stage::Over => Ok(p.account),
        Stage::Reading | Stage::Failed => Err(Failed),
    }
}
