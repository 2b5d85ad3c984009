// Which sub-table a section belongs to.
ghost use Rattle.std.specs.Prelude.{◌≡◌};
ghost use Rattle.head.specs.SubTable.{ids_that_count, network_in, sub_table_of, compared, same_ids};

use crate::SubTable;
use tables::{Table, table_of};
use wire::numbers::{byte_at, number16_at};

// Of the two transport ids, those that count for the table; 0 for the others.
#[tactic(auto, unfolding(crate::specs::SubTable::ids_that_count))]
fn ids_that_count(table_id: u8, extension: u16, transport: u16, network: u16) -> SubTable
    ensures { result ≡ ids_that_count table_id extension transport network }
{
    let (transport_stream_id, original_network_id) = match table_of(table_id) {
        Some(Table::Sdt) => (0, network),
        Some(Table::Eit) => (transport, network),
        _ => (0, 0),
    };
    SubTable {
        table_id,
        extension,
        transport_stream_id,
        original_network_id,
    }
}

// SDT's original_network_id stands where EIT has its transport_stream_id, EIT's behind that.
#[tactic(auto, unfolding(crate::specs::SubTable::network_in))]
fn network_in(section: &[u8]) -> u16
    ensures { result ≡ network_in section.now }
{
    match table_of(byte_at(section, 0)) {
        Some(Table::Sdt) => number16_at(section, 8),
        _ => number16_at(section, 10),
    }
}

#[tactic(auto, unfolding(crate::specs::SubTable::sub_table_of))]
pub fn sub_table_of(section: &[u8]) -> SubTable
    ensures { result ≡ sub_table_of section.now }
{
    let extension = crate::extension_of(section);
    let transport = number16_at(section, 8);
    let network = network_in(section);
    ids_that_count(byte_at(section, 0), extension, transport, network)
}

// What a roll keeps, as it is compared: an id that does not count may hold anything.
#[tactic(auto, unfolding(crate::specs::SubTable::compared))]
pub fn as_compared(kept: SubTable) -> SubTable
    ensures { result ≡ compared kept }
{
    ids_that_count(
        kept.table_id,
        kept.extension,
        kept.transport_stream_id,
        kept.original_network_id,
    )
}

#[tactic(auto, unfolding(crate::specs::SubTable::same_ids))]
pub fn same_ids(a: SubTable, b: SubTable) -> bool
    ensures { result ≡ same_ids a b }
{
    a == b
}
