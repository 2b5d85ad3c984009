// What stands in an entry's fixed bytes, by name; and times and durations out of their bytes. A byte that is not there reads as 0.
ghost use Rattle.std.specs.Prelude.{◌≡◌, ◌+◌, ◌≤◌, length};
ghost use Rattle.clock.specs.Fault.{told};
ghost use Rattle.parts.specs.Names.{id_in, network_in, event_at, event_part, start_in, duration_in, time_from, duration_from};

use crate::{Part, is_within, no_part};
use clock::time::Moment;
use clock::{Fault, Hms};
use tables::{Table, table_of};
use wire::numbers::{byte_at, number16_at};

// The first two of an entry's fixed bytes: SDT's service_id, EIT's event_id, the transport_stream_id of NIT and BAT.
pub fn id_in(section: &[u8], fixed: Part) -> u16
    ensures { result ≡ id_in section.now fixed }
{
    number16_at(wire::parts::part(section, fixed.start, fixed.size), 0)
}

// The original_network_id of an entry of NIT or BAT; 0 for other tables.
#[tactic(auto, unfolding(crate::specs::Names::network_in))]
pub fn network_in(section: &[u8], fixed: Part) -> u16
    ensures { result ≡ network_in section.now fixed }
{
    match table_of(byte_at(section, 0)) {
        Some(Table::Nit | Table::Bat) => number16_at(
            wire::parts::part(section, fixed.start, fixed.size),
            2,
        ),
        _ => 0,
    }
}

// `size` of an event's fixed bytes, `from` bytes behind the first of them; of no size where they are no event's.
#[tactic(auto, unfolding(crate::specs::Names::event_at))]
fn event_at(section: &[u8], fixed: Part, from: usize, size: usize) -> Part
    requires { (from + size ≤ 12) × (fixed.start + fixed.size ≤ length section.now) }
    ensures { result ≡ event_at section.now fixed from size }
{
    if fixed.size < 12 {
        return no_part();
    }
    match table_of(byte_at(section, 0)) {
        Some(Table::Eit) => Part {
            start: fixed.start + from,
            size,
        },
        _ => no_part(),
    }
}

#[tactic(auto, unfolding(crate::specs::Names::event_part))]
fn event_part(section: &[u8], fixed: Part, from: usize, size: usize) -> Part
    requires { from + size ≤ 12 }
    ensures { result ≡ event_part section.now fixed from size }
{
    if is_within(section, fixed) {
        return event_at(section, fixed, from, size);
    }
    no_part()
}

// An event's start_time.
pub fn start_in(section: &[u8], fixed: Part) -> Part
    ensures { result ≡ start_in section.now fixed }
{
    event_part(section, fixed, 2, 5)
}

// An event's duration.
pub fn duration_in(section: &[u8], fixed: Part) -> Part
    ensures { result ≡ duration_in section.now fixed }
{
    event_part(section, fixed, 7, 3)
}

// The time in the first five bytes.
pub fn time_from(bytes: &[u8]) -> Result<Moment, Fault>
    ensures { told result ≡ time_from bytes.now }
{
    clock::time::read(
        number16_at(bytes, 0),
        byte_at(bytes, 2),
        byte_at(bytes, 3),
        byte_at(bytes, 4),
    )
}

// The duration in the first three bytes.
pub fn duration_from(bytes: &[u8]) -> Result<Hms, Fault>
    ensures { told result ≡ duration_from bytes.now }
{
    clock::duration::read(byte_at(bytes, 0), byte_at(bytes, 1), byte_at(bytes, 2))
}
