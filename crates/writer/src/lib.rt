// Request (ii): sections, a PID and a first counter go in, and packets of 188 bytes come out.
#![tactic(auto)]

mod cut;
mod layout;
mod packets;
mod stream;

ghost use Rattle.std.specs.Prelude.{◌≡◌};
ghost use Rattle.writer.specs.Answer.{number_of, came};
ghost use Rattle.writer.specs.Written.{written};

use layout::Ahead;
use stream::Stream;

#[derive(Clone, Copy, PartialEq, Eq)]
pub enum Refusal {
    // 101: PID above 8,191 or counter above 15.
    BadStart = 101,
    // 102: a section whose length is not its header's, is over 4,096, or begins 0xFF.
    BadSection,
    // 103: room too small.
    Room,
}

impl Refusal {
    // Its number.
    pub fn number(self) -> u8
        ensures { result ≡ number_of self }
    {
        self as u8
    }
}

// How many packets stand at the room's start, or why none.
pub type Answer = Result<usize, Refusal>;

// The sections stand end to end, and sizes has the size of each. Nothing is written before 103 is decided.
pub fn write(pid: u16, counter: u8, sections: &[u8], sizes: &[usize], room: &mut [u8]) -> Answer
    ensures { came room.new result
        ≡ written pid counter sections.now sizes.now room.old }
{
    if 8191 < pid || 15 < counter {
        return Err(Refusal::BadStart);
    }
    let stream = Stream { pid, counter };
    if !cut::fits(sections, sizes) {
        return Err(Refusal::BadSection);
    }
    let ahead = Ahead {
        left: 0,
        waiting: sizes,
        bytes: sections,
    };
    let n = ahead.count();
    if room.len() / 188 < n {
        return Err(Refusal::Room);
    }
    packets::put_all(stream, ahead, room);
    Ok(n)
}
