// The collector, with its record as numbers.
ghost use Rattle.std.specs.Prelude.{◌≡◌};
ghost use Rattle.collector.specs.Answer.{told};
ghost use Rattle.collector.specs.Collected.{fresh_record};
ghost use Rattle.cabinet.specs.Collect.{last_in, last_says, mark_in, mark_says, record_in, record_after, record_says, collect_says, leaves, collecting};

use collector::{Answer, Passed};

// The number that stands for no counter. It is above 15 as those are that no counter has, so that each value of a byte has a meaning.
pub const NO_COUNTER: u8 = 255;

// It has no padding, which no promise can cover: each of its 40 bytes is one of a number.
#[repr(C)]
#[derive(Clone, Copy, Default)]
pub struct Record {
    pub pid: u16,
    // The last counter, or NO_COUNTER.
    pub last: u8,
    // Any number but 0: set.
    pub mark: u8,
    // The number of the section rejected last, 0 where none was.
    pub rejection: u32,
    pub in_hand: usize,
    pub pointer: u32,
    pub accepted: u32,
    pub broken: u32,
    pub filler: u32,
    pub skipped: u32,
    pub rejected: u32,
}

#[repr(C)]
#[derive(Clone, Copy, Default)]
pub struct CollectAnswer {
    pub number: u32,
    // 1 for a repeated packet.
    pub repeated: u32,
    // The number of the sections that were accepted, and their bytes.
    pub sections: usize,
    pub size: usize,
}

// The record after a packet, and the answer.
#[derive(Clone, Copy)]
struct Stepped {
    record: Record,
    answer: CollectAnswer,
}

fn last_in(last: u8) -> Option<u8>
    ensures { result ≡ last_in last }
{
    if last == NO_COUNTER { None } else { Some(last) }
}

fn last_says(last: Option<u8>) -> u8
    ensures { result ≡ last_says last }
{
    last.unwrap_or(NO_COUNTER)
}

fn mark_in(mark: u8) -> bool
    ensures { result ≡ mark_in mark }
{
    mark != 0
}

// A number is rewritten only where its meaning changes.
fn mark_says(before: u8, mark: bool) -> u8
    ensures { result ≡ mark_says before mark }
{
    match (mark, before) {
        (false, _) => 0,
        (true, 0) => 1,
        (true, before) => before,
    }
}

fn record_in(rec: Record) -> collector::Record
    ensures { result ≡ record_in rec }
{
    collector::Record {
        pid: rec.pid,
        last: last_in(rec.last),
        in_hand: rec.in_hand,
        pointer: rec.pointer,
        accepted: rec.accepted,
        rejected: rec.rejected,
        broken: rec.broken,
        filler: rec.filler,
        skipped: rec.skipped,
        mark: mark_in(rec.mark),
        rejection: rec.rejection,
    }
}

fn record_after(before: Record, rec: collector::Record) -> Record
    ensures { result ≡ record_after before rec }
{
    Record {
        pid: rec.pid,
        last: last_says(rec.last),
        mark: mark_says(before.mark, rec.mark),
        rejection: rec.rejection,
        in_hand: rec.in_hand,
        pointer: rec.pointer,
        accepted: rec.accepted,
        broken: rec.broken,
        filler: rec.filler,
        skipped: rec.skipped,
        rejected: rec.rejected,
    }
}

fn answer_says(answer: Answer) -> CollectAnswer
    ensures { result ≡ collect_says (told answer) }
{
    let none = CollectAnswer::default();
    match answer {
        Err(refusal) => CollectAnswer {
            number: refusal.number() as u32,
            ..none
        },
        Ok(Passed::Repeated) => CollectAnswer {
            repeated: 1,
            ..none
        },
        Ok(Passed::Taken { sections, bytes }) => CollectAnswer {
            sections,
            size: bytes,
            ..none
        },
    }
}

#[unsafe(no_mangle)]
pub extern "C" fn lohitunga_fresh(pid: u16) -> Record
    ensures { result ≡ record_says (fresh_record pid) }
{
    record_after(Record::default(), collector::fresh(pid))
}

// One packet, with the record by value.
fn step(rec: Record, hold: &mut [u8], out: &mut [u8], packet: &[u8]) -> Stepped
    ensures { leaves result.record hold.new out.new result.answer
        ≡ collecting rec hold.old out.old packet.now }
{
    let s = collector::step(record_in(rec), hold, out, packet);
    Stepped {
        record: record_after(rec, s.record),
        answer: answer_says(s.answer),
    }
}

#[unsafe(no_mangle)]
pub extern "C" fn lohitunga_collect(
    rec: &mut Record,
    hold: &mut [u8],
    out: &mut [u8],
    packet: &[u8],
) -> CollectAnswer
    ensures { leaves rec.new hold.new out.new result
        ≡ collecting rec.old hold.old out.old packet.now }
{
    let s = step(*rec, hold, out, packet);
    *rec = s.record;
    s.answer
}
