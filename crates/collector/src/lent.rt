// What a call is lent: refusals 41 to 43, and then those of the packet alone.
ghost use Rattle.std.specs.Prelude.{◌≡◌, ◌≤◌, length};
ghost use Rattle.packet.specs.Refusals.{judged};
ghost use Rattle.packet.specs.Judgement.{meant};
ghost use Rattle.collector.specs.Refusals.{held_unfit, cannot_stand, too_small};

use crate::{Record, stretch};
use packet::{Judgement, Refusal};

// Refusal 43, of n bytes in hand where the record has a counter or none.
fn held_unfit(n: usize, none: bool, hold: &[u8]) -> bool
    requires { 4096 ≤ length hold.now }
    ensures { result ≡ held_unfit n none hold.now }
{
    if n < 3 {
        return n != 0 && (none || hold[0] == 255);
    }
    let total = stretch::total_of(hold[1], hold[2]);
    none || hold[0] == 255 || total <= n || 4096 < total
}

// Refusal 43: a record that no run of calls leaves.
#[tactic(auto, unfolding(crate::specs::Refusals::cannot_stand))]
fn unfit(rec: Record, hold: &[u8]) -> bool
    requires { 4096 ≤ length hold.now }
    ensures { result ≡ cannot_stand rec hold.now }
{
    8191 < rec.pid
        || rec.last.is_some_and(|counter| 15 < counter)
        || 10 < rec.rejection
        || 4095 < rec.in_hand
        || held_unfit(rec.in_hand, rec.last.is_none(), hold)
}

// A packet and what it is lent with, by document 01's table: 41, 42 and 43 come before what the packet alone is refused for.
#[tactic(auto, unfolding(packet::specs::Refusals::judged))]
pub fn judge(rec: Record, hold: &[u8], room: usize, packet: &[u8]) -> Judgement
    ensures { meant result ≡ judged (too_small (length hold.now) room) (cannot_stand rec hold.now)
        rec.pid packet.now }
{
    if packet.len() != 188 {
        return Err(Refusal::NotAPacket);
    }
    if hold.len() < 4096 || room < 4280 {
        return Err(Refusal::Room);
    }
    if unfit(rec, hold) {
        return Err(Refusal::Unfit);
    }
    packet::judge(rec.pid, packet)
}
