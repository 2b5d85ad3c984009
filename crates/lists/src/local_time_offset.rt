// 0x58 local time offset: items of 13 bytes.
ghost use Rattle.std.specs.Prelude.{◌≡◌, ◌<◌};
ghost use Rattle.clock.specs.Fault.{told as toldField};
ghost use Rattle.layout.specs.Refusal.{told};
ghost use Rattle.lists.specs.LocalTimeOffset.{offset_in, time_in, fields, localTimeOffset, offset_count};

use clock::Fault;
use clock::time::Moment;
use layout::Refusal;
use layout::items::{item_at, number_of};
use wire::numbers::{bits_at, byte_at, number16_at, number24_at};
use wire::parts::part;

#[derive(Clone, Copy)]
pub struct Item {
    // Three characters, the first the highest byte.
    pub country_code: u32,
    pub country_region_id: u8,
    // In minutes, below zero behind UTC.
    pub local_time_offset: i16,
    pub time_of_change: Moment,
    // In minutes, below zero behind UTC.
    pub next_time_offset: i16,
}

// The offset at a place of the item, which stands at `from` in the body. One polarity serves both offsets.
#[tactic(auto, unfolding(crate::specs::LocalTimeOffset::offset_in))]
fn offset_in(b: &[u8], from: u16, at: u16) -> Result<i16, Fault>
    requires { (from < 256) × (at < 256) }
    ensures { toldField result ≡ offset_in b.now from at }
{
    let place = from + at;
    let at = at as usize;
    clock::offset::read_at(
        place,
        bits_at(b, 3, 0, 0) == 1,
        byte_at(b, at),
        byte_at(b, at + 1),
    )
}

#[tactic(auto, unfolding(crate::specs::LocalTimeOffset::time_in))]
fn time_in(b: &[u8], from: u16, at: u16) -> Result<Moment, Fault>
    requires { (from < 256) × (at < 256) }
    ensures { toldField result ≡ time_in b.now from at }
{
    let place = from + at;
    let at = at as usize;
    clock::time::read_at(
        place,
        number16_at(b, at),
        byte_at(b, at + 2),
        byte_at(b, at + 3),
        byte_at(b, at + 4),
    )
}

#[tactic(auto, unfolding(crate::specs::LocalTimeOffset::fields))]
fn fields_of(b: &[u8], from: u16) -> Result<Item, Refusal>
    requires { from < 256 }
    ensures { told result ≡ fields from b.now }
{
    let local_time_offset = offset_in(b, from, 4)?;
    let time_of_change = time_in(b, from, 6)?;
    let next_time_offset = offset_in(b, from, 11)?;
    Ok(Item {
        country_code: number24_at(b, 0),
        country_region_id: bits_at(b, 3, 7, 2),
        local_time_offset,
        time_of_change,
        next_time_offset,
    })
}

// How many items there are.
pub fn count(s: &[u8]) -> Result<usize, Refusal>
    ensures { told result ≡ offset_count s.now }
{
    number_of(s, 0x58, 13)
}

// The item of an index counted from 0.
#[tactic(auto, unfolding(crate::specs::LocalTimeOffset::localTimeOffset, layout::specs::Items::item))]
pub fn read(s: &[u8], index: usize) -> Result<Item, Refusal>
    ensures { told result ≡ localTimeOffset s.now index }
{
    let at = item_at(s, 0x58, 13, index)?;
    fields_of(part(s, at, 13), (at - 2) as u16)
}
