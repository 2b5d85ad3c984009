// Where each packet begins, by the sizes of the sections alone.
ghost use Rattle.std.specs.Prelude.{◌≡◌, ◌&&◌, ◌+◌, ◌≤◌, ◌<◌, ltb, length, drop};
ghost use Rattle.writer.specs.Layout.{sum, turns_from};

// A packet: its pointer, where a section begins in it, and how many bytes of sections it has.
#[derive(Clone, Copy)]
pub struct Turn {
    pub pointer: Option<u8>,
    pub bytes: usize,
}

// What is left to send: how many bytes of the section begun, the sizes of the sections that wait, and all these bytes.
#[derive(Clone, Copy)]
pub struct Ahead<'a> {
    pub left: usize,
    pub waiting: &'a [usize],
    pub bytes: &'a [u8],
    ghost whole: { left + sum waiting.now ≡ length bytes.now },
}

// Some packets more: how many, and what is then ahead.
#[derive(Clone, Copy)]
struct Leap<'a> {
    packets: usize,
    ahead: Ahead<'a>,
}

// A section is begun in a packet where one waits and fewer than 183 bytes are left of the one before.
fn begins_one(waits: bool, left: usize) -> bool
    ensures { result ≡ (waits && ltb left 183) }
{
    waits && left < 183
}

impl<'a> Ahead<'a> {
    ghost use Rattle.writer.specs.Layout.{turn_of, opened};
    ghost use Rattle.writer.specs.Inner.{ahead_of, turn_said, Leaps};

    // "The start flag stands only where a section begins"; without it the packet has no byte of a section that waits.
    pub fn next_turn(self) -> Turn
        ensures { result ≡ turn_said (turn_of (ahead_of self.entry)) }
    {
        if begins_one(!self.waiting.is_empty(), self.left) {
            return Turn {
                pointer: Some(self.left as u8),
                bytes: self.bytes.len().min(183),
            };
        }
        Turn {
            pointer: None,
            bytes: self.left.min(184),
        }
    }

    // What is ahead once n bytes more are laid: sections are begun as long as those begun have fewer.
    pub fn open_next(self, n: usize) -> Ahead<'a>
        requires { n ≤ length self.bytes.now }
        ensures { (ahead_of result ≡ opened n self.entry.left self.entry.waiting.now)
            × (result.bytes.now ≡ drop n self.entry.bytes.now) }
    {
        let mut left = self.left;
        let mut waiting = self.waiting;
        while left < n {
            left += waiting[0];
            waiting = &waiting[1..];
        }
        Ahead {
            left: left - n,
            waiting,
            bytes: &self.bytes[n..],
        }
    }

    // Packets that the section begun fills are told at once, others one by one.
    fn some_more(self) -> Leap<'a>
        requires { 0 < length self.bytes.now }
        ensures { Leaps self.entry result }
    {
        if 184 <= self.left {
            let n = self.left / 184;
            return Leap {
                packets: n,
                ahead: self.open_next(n * 184),
            };
        }
        Leap {
            packets: 1,
            ahead: self.open_next(self.next_turn().bytes),
        }
    }

    // The packets that they take.
    #[tactic(auto, using(crate::proofs::TurnLaws::turns_stop))]
    pub fn count(self) -> usize
        ensures { result ≡ length (turns_from (ahead_of self.entry)) }
    {
        let mut a = self;
        let mut n = 0;
        while !a.bytes.is_empty() {
            let l = a.some_more();
            n += l.packets;
            a = l.ahead;
        }
        n
    }
}
