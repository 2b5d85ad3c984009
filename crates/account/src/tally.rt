// The account: the collector's record, how the packets fared, and the sections that came out. Its own four counters run
// round past 2^64 - 1.
ghost use Rattle.std.specs.Prelude.{◌≡◌, ◌/◌, ◌≤◌, length};
ghost use Rattle.collector.specs.Answer.{told};
ghost use Rattle.account.specs.Entered.{fresh_account, tallied, kept_as, entered, entered_all, pieces};

use collector::{Answer, Passed, Record};

#[derive(Clone, Copy)]
pub struct Account {
    pub rec: Record,
    pub taken: u64,
    pub repeated: u64,
    pub refused: u64,
    pub sections: u64,
}

// Before the first packet of a PID.
pub fn fresh(pid: u16) -> Account
    ensures { result ≡ fresh_account pid }
{
    Account {
        rec: collector::fresh(pid),
        taken: 0,
        repeated: 0,
        refused: 0,
        sections: 0,
    }
}

// One packet more, which left this record and had this answer.
fn one_more(a: Account, rec: Record, answer: Answer) -> Account
    ensures { result ≡ tallied a rec (told answer) }
{
    match answer {
        Err(_) => Account {
            rec,
            refused: a.refused.wrapping_add(1),
            ..a
        },
        Ok(Passed::Repeated) => Account {
            rec,
            repeated: a.repeated.wrapping_add(1),
            ..a
        },
        Ok(Passed::Taken { sections, bytes: _ }) => Account {
            rec,
            taken: a.taken.wrapping_add(1),
            sections: a.sections.wrapping_add(sections as u64),
            ..a
        },
    }
}

// A packet, or the last piece of the input, which the collector refuses where it is short.
pub fn enter(a: Account, hold: &mut [u8], out: &mut [u8], packet: &[u8]) -> Account
    ensures { kept_as result hold.new out.new
        ≡ entered (kept_as a hold.old out.old) packet.now }
{
    let s = collector::step(a.rec, hold, out, packet);
    one_more(a, s.record, s.answer)
}

// The whole packets among the first n bytes, one after another.
pub fn enter_all(a: Account, hold: &mut [u8], out: &mut [u8], bytes: &[u8], n: usize) -> Account
    requires { n ≤ length bytes.now }
    ensures { kept_as result hold.new out.new
        ≡ entered_all (kept_as a hold.old out.old) (pieces (n / 188) bytes.now) }
{
    let mut b = a;
    let (packets, _) = bytes[..n].as_chunks::<188>();
    for packet in packets {
        b = enter(b, hold, out, packet);
    }
    b
}
