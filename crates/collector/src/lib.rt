// The collector of document 01 with the judge in it: packets of one PID go in, one at a time, and of the sections that they
// carry those come out that the judge accepts.
#![tactic(auto)]

mod bytes;
mod lent;
mod payload;
mod settling;
mod stretch;
mod taking;

ghost use Rattle.std.specs.Prelude.{◌≡◌};
ghost use Rattle.collector.specs.Answer.{came};
ghost use Rattle.collector.specs.Collected.{collected, fresh_record};

use packet::{Load, Refusal};

// "It has the PID, the last counter or none, the bytes in hand", 32-bit counters, of which "The delivered counter splits into
// accepted and rejected"; "The record gains a mark."; "A rejected section's number is kept in the record, the last one only".
// The bytes in hand stand at the start of the hold.
#[derive(Clone, Copy)]
pub struct Record {
    pub pid: u16,
    pub last: Option<u8>,
    pub in_hand: usize,
    pub pointer: u32,
    pub accepted: u32,
    pub rejected: u32,
    pub broken: u32,
    pub filler: u32,
    pub skipped: u32,
    pub mark: bool,
    pub rejection: u32,
}

// What a packet comes to that is not refused. Taken: "the finished sections end to end, the answer their number and bytes",
// of the accepted ones.
#[derive(Clone, Copy)]
pub enum Passed {
    Repeated,
    Taken { sections: usize, bytes: usize },
}

// What a call answers.
pub type Answer = Result<Passed, Refusal>;

// The record after a packet, and the answer.
#[derive(Clone, Copy)]
pub struct Stepped {
    pub record: Record,
    pub answer: Answer,
}

// "A fresh one: no counter, nothing in hand, zeros."; of the number "0 at first". It is made for any number; one that is no
// PID is refused with 43 at each packet.
pub fn fresh(pid: u16) -> Record
    ensures { result ≡ fresh_record pid }
{
    Record {
        pid,
        last: None,
        in_hand: 0,
        pointer: 0,
        accepted: 0,
        rejected: 0,
        broken: 0,
        filler: 0,
        skipped: 0,
        mark: false,
        rejection: 0,
    }
}

// One packet, with the record by value.
pub fn step(rec: Record, hold: &mut [u8], out: &mut [u8], packet: &[u8]) -> Stepped
    ensures { came result.record hold.new out.new result.answer
        ≡ collected rec hold.old out.old packet.now }
{
    match lent::judge(rec, hold, out.len(), packet) {
        Err(refusal) => Stepped {
            record: rec,
            answer: Err(refusal),
        },
        Ok(Load::Bare { splice }) => Stepped {
            record: taking::marked(rec, splice),
            answer: Ok(Passed::Taken {
                sections: 0,
                bytes: 0,
            }),
        },
        Ok(Load::Payload(load)) => taking::carried(rec, hold, out, packet, load),
    }
}

// "the collector's record is altered in place by each packet"
pub fn collect(rec: &mut Record, hold: &mut [u8], out: &mut [u8], packet: &[u8]) -> Answer
    ensures { came rec.new hold.new out.new result
        ≡ collected rec.old hold.old out.old packet.now }
{
    let s = step(*rec, hold, out, packet);
    *rec = s.record;
    s.answer
}
