// A section's head: what NIT, SDT, BAT and EIT have between section_length and their loops. A byte that is not there
// reads as 0.
#![tactic(auto)]

ghost use Rattle.std.specs.Prelude.{◌≡◌};
ghost use Rattle.head.specs.Head.{extension_in, version_in, is_current, number_in, last_in, has_no_sub_table};

use tables::{numbered, table_of};
use wire::numbers::{byte_at, number16_at};

pub mod sub_tables;

// "A sub-table is table_id and extension, for SDT also original_network_id, for EIT also both transport ids."
#[derive(Clone, Copy, PartialEq, Eq)]
pub struct SubTable {
    pub table_id: u8,
    pub extension: u16,
    // EIT's alone: SDT's is its extension.
    pub transport_stream_id: u16,
    pub original_network_id: u16,
}

// NIT's network_id, BAT's bouquet_id, SDT's transport_stream_id, EIT's service_id.
pub fn extension_of(section: &[u8]) -> u16
    ensures { result ≡ extension_in section.now }
{
    number16_at(section, 3)
}

// version_number stands in five bits, above current_next_indicator.
#[tactic(auto, unfolding(crate::specs::Head::version_in))]
pub fn version_of(section: &[u8]) -> u8
    ensures { result ≡ version_in section.now }
{
    byte_at(section, 5) / 2 % 32
}

#[tactic(auto, unfolding(crate::specs::Head::is_current))]
pub fn is_current(section: &[u8]) -> bool
    ensures { result ≡ is_current section.now }
{
    byte_at(section, 5) % 2 == 1
}

// section_number
pub fn number_of(section: &[u8]) -> u8
    ensures { result ≡ number_in section.now }
{
    byte_at(section, 6)
}

// last_section_number
pub fn last_of(section: &[u8]) -> u8
    ensures { result ≡ last_in section.now }
{
    byte_at(section, 7)
}

// TDT and TOT, or a table that is not known.
#[tactic(auto, unfolding(crate::specs::Head::has_no_sub_table))]
pub fn has_no_sub_table(section: &[u8]) -> bool
    ensures { result ≡ has_no_sub_table section.now }
{
    !numbered(table_of(byte_at(section, 0)))
}
