// The fields of a head, and those of an entry before its loop, by the table.
ghost use Rattle.std.specs.Prelude.{drop};
ghost use Rattle.forms.specs.Inner.Turning.{Turned};
ghost use Rattle.tables.specs.Tables.{place};
ghost use Rattle.sheet.specs.Content.{common, head_of, entry_of};
ghost use Rattle.turn.specs.Inner.Ways.{items_from, items_to};

use crate::pieces::{packed, plain};
use forms::Place;
use tables::Table;

// What follows last_section_number: in an SDT original_network_id and a reserved byte, in an EIT ids and numbers.
fn ids(forth: bool, table: Table, s: &[u8], p: Place, room: &mut [u8]) -> Place
    ensures { Turned (items_from forth (drop 3 (head_of (place table)))) (items_to forth (drop 3 (head_of (place table))))
        s.now p room.old result room.new }
{
    match table {
        Table::Sdt => {
            let q = plain(s, p, 2, room);
            packed(forth, 0, s, q, room)
        }
        Table::Eit => plain(s, p, 6, room),
        _ => p,
    }
}

// Extension id, version and current_next_indicator, section numbers, ids.
fn common(forth: bool, table: Table, s: &[u8], p: Place, room: &mut [u8]) -> Place
    ensures { Turned (items_from forth (common (drop 3 (head_of (place table))))) (items_to forth (common (drop 3 (head_of (place table)))))
        s.now p room.old result room.new }
{
    let version = plain(s, p, 2, room);
    let numbers = packed(forth, 32, s, version, room);
    let more = plain(s, numbers, 2, room);
    ids(forth, table, s, more, room)
}

pub fn head(forth: bool, table: Table, s: &[u8], p: Place, room: &mut [u8]) -> Place
    ensures { Turned (items_from forth (head_of (place table))) (items_to forth (head_of (place table)))
        s.now p room.old result room.new }
{
    if table.is_numbered() {
        return common(forth, table, s, p, room);
    }
    plain(s, p, 5, room)
}

pub fn entry_fields(forth: bool, table: Table, s: &[u8], p: Place, room: &mut [u8]) -> Place
    ensures { Turned (items_from forth (entry_of (place table))) (items_to forth (entry_of (place table)))
        s.now p room.old result room.new }
{
    match table {
        Table::Nit | Table::Bat => plain(s, p, 4, room),
        Table::Sdt => {
            let q = plain(s, p, 2, room);
            packed(forth, 2, s, q, room)
        }
        Table::Eit => plain(s, p, 10, room),
        Table::Tdt | Table::Tot => p,
    }
}
