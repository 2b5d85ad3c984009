// One read of standard input, and what its answer means.
ghost use Rattle.std.specs.Prelude.{◌≡◌, ◌≤◌, length};
ghost use Rattle.account.specs.Heard.{got_as, GotIn, Behind};

use std::io;
use std::io::{Read, Stdin};

// What one read came to. Again: a signal came first.
#[derive(Clone, Copy)]
pub enum Got {
    Bytes(usize),
    Again,
    End,
    Failed,
}

// What a read came to, and no other function's word for it: only `read_into` makes one.
#[derive(Clone, Copy)]
pub struct OneRead {
    got: Got,
}

// Standard input, and the error of the last read of it that failed.
#[derive(Drop)]
pub struct Source {
    stdin: Stdin,
    failure: Option<io::Error>,
}

pub fn standard_input(stdin: Stdin) -> Source {
    Source {
        stdin,
        failure: None,
    }
}

// The error of the last read that failed.
pub fn failure_of(source: Source) -> Option<io::Error> {
    source.failure
}

pub fn got_of(came: OneRead) -> Got
    ensures { result ≡ came.got }
{
    came.got
}

// The error of a read before which a signal came.
const INTERRUPTED: i32 = 4;

// What `read` answered, with the error after it, for this room.
fn got_as(answer: isize, error: i32, room: &[u8]) -> Got
    ensures { result ≡ got_as answer error (length room.now) }
{
    if answer > 0 {
        return Got::Bytes((answer as usize).min(room.len()));
    }
    if answer == 0 {
        return Got::End;
    }
    if error == INTERRUPTED {
        return Got::Again;
    }
    Got::Failed
}

// The one call by which something comes in.
fn read_into(source: &mut Source, room: &mut [u8]) -> OneRead
    ensures { GotIn (length room.old) result.got }
{
    let mut answer: isize = -1;
    let mut error = 0;
    match source.stdin.read(room) {
        Ok(n) => answer = n as isize,
        Err(e) => {
            error = e.raw_os_error().unwrap_or(0);
            source.failure = Some(e);
        }
    }
    let got = got_as(answer, error, room);
    OneRead { got }
}

// One read, to index left of the buffer.
pub fn read_behind(source: &mut Source, buf: &mut [u8], left: usize) -> OneRead
    requires { left ≤ length buf.old }
    ensures { Behind left buf.old buf.new result.got }
{
    read_into(source, &mut buf[left..])
}
