// What a packet that is not refused makes of the record and the rooms.
ghost use Rattle.std.specs.Prelude.{◌≡◌, ◌<◌, ◌||◌, take, drop};
ghost use Rattle.packet.specs.Ruling.{mark_with, joins, repeats, load_of, ruled_on};
ghost use Rattle.collector.specs.Rules.{holding, joined, plain, payload};
ghost use Rattle.collector.specs.Judged.{by_judge};
ghost use Rattle.collector.specs.Refusals.{last_of, before_of};
ghost use Rattle.collector.specs.Answer.{came};
ghost use Rattle.collector.specs.Collected.{marked_by, outcome_after, outcome_of};
ghost use Rattle.collector.specs.Inner.Stretch.{Small};
ghost use Rattle.collector.specs.Inner.Payload.{Fit};
ghost use Rattle.collector.specs.Inner.Taking.{kept_of, counted_of};

use crate::stretch::Gain;
use crate::{Passed, Record, Stepped, payload};
use packet::Payload;

// The mark, once a packet with this bit has come: it was set, or the bit sets it.
fn is_set(mark: bool, splice: bool) -> bool
    ensures { result ≡ (mark || splice) }
{
    mark || splice
}

// "a counter equal to the last"; behind a mark a packet "is never "repeated""
#[tactic(auto, unfolding(packet::specs::Ruling::repeats))]
fn is_repeat(last: Option<u8>, spliced: bool, counter: u8) -> bool
    ensures { result ≡ repeats (last_of last) spliced counter }
{
    !spliced && last.is_some_and(|last| counter == last)
}

// "the last plus 1 modulo 16", and no mark
#[tactic(auto, unfolding(packet::specs::Ruling::joins))]
fn is_joined(last: Option<u8>, spliced: bool, counter: u8) -> bool
    ensures { result ≡ joins (last_of last) spliced counter }
{
    !spliced && last.is_none_or(|last| wire::wide(counter) == (wire::wide(last) + 1) % 16)
}

// A packet without payload changes the mark alone.
pub fn marked(rec: Record, splice: bool) -> Record
    ensures { result ≡ marked_by splice rec }
{
    Record {
        mark: is_set(rec.mark, splice),
        ..rec
    }
}

// The record after a packet that is taken with payload, which ".. clears" the mark; broken bytes were in hand and are
// broken off by a break in the counter or by the mark.
fn counted(rec: Record, counter: u8, e: Gain, broken: usize, start: bool) -> Record
    requires { Small e × (broken < 4096) }
    ensures { result ≡ counted_of rec counter e broken start }
{
    let accepted = e.bytes as u32;
    let rejected = e.rejected as u32;
    let lost = (broken + e.breaking) as u32;
    let filler = e.filling as u32;
    let skipped = e.skipping as u32;
    Record {
        last: Some(counter),
        in_hand: e.in_hand,
        pointer: rec.pointer.wrapping_add(u32::from(start)),
        accepted: rec.accepted.wrapping_add(accepted),
        rejected: rec.rejected.wrapping_add(rejected),
        broken: rec.broken.wrapping_add(lost),
        filler: rec.filler.wrapping_add(filler),
        skipped: rec.skipped.wrapping_add(skipped),
        mark: false,
        rejection: e.rejection,
        ..rec
    }
}

// The bytes that stay in hand of those held.
fn kept(next: bool, held: usize) -> usize
    ensures { result ≡ kept_of next held }
{
    if next { held } else { 0 }
}

// A packet that is taken and has payload; next says that what is in hand goes on in it.
fn taken(
    rec: Record,
    hold: &mut [u8],
    out: &mut [u8],
    packet: &[u8],
    load: Payload,
    next: bool,
) -> Stepped
    requires { Fit rec.in_hand hold.old out.old packet.now load.from load.start }
    ensures { came result.record hold.new out.new result.answer
        ≡ outcome_after rec
        hold.old out.old load.counter
        (payload by_judge plain load.start (joined next (holding (take rec.in_hand hold.old)))
        (drop load.from packet.now)) }
{
    let n = kept(next, rec.in_hand);
    let e = payload::carry(hold, n, packet, load, out, rec.rejection);
    Stepped {
        record: counted(rec, load.counter, e, rec.in_hand - n, load.start),
        answer: Ok(Passed::Taken {
            sections: e.sections,
            bytes: e.bytes,
        }),
    }
}

// A packet that is not refused and has payload.
pub fn carried(
    rec: Record,
    hold: &mut [u8],
    out: &mut [u8],
    packet: &[u8],
    load: Payload,
) -> Stepped
    requires { Fit rec.in_hand hold.old out.old packet.now load.from load.start }
    ensures { came result.record hold.new out.new result.answer
        ≡ outcome_of rec hold.old out.old
        (ruled_on (before_of rec)
        (load_of (mark_with (before_of rec) load.splice) packet.now load.from load.start load.counter)) }
{
    let spliced = is_set(rec.mark, load.splice);
    if is_repeat(rec.last, spliced, load.counter) {
        return Stepped {
            record: rec,
            answer: Ok(Passed::Repeated),
        };
    }
    let next = is_joined(rec.last, spliced, load.counter);
    taken(rec, hold, out, packet, load, next)
}
