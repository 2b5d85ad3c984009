// What stands behind section_length, as a whole.
ghost use Rattle.std.specs.Prelude.{true, false};
ghost use Rattle.tables.specs.Tables.{place};
ghost use Rattle.turn.specs.Inner.Bodies.{BodyTurned};

use crate::entries::{entries_back, entries_forth, top_loop};
use crate::heads::head;
use forms::Place;
use tables::Table;

// From a sheet into a section, which ends at the place `end`.
pub fn body_forth(table: Table, s: &[u8], p: Place, end: usize, room: &mut [u8]) -> Place
    ensures { BodyTurned true (place table) s.now p end room.old result room.new }
{
    let row = table.row();
    let top = row.top == 1;
    let q = head(true, table, s, p, room);
    let t = top_loop(true, top, s, q, room);
    if row.fixed == 0 {
        return t;
    }
    entries_forth(top, table, s, t, end, room)
}

// From a section, which ends at the place `end`, into a sheet.
pub fn body_back(table: Table, s: &[u8], p: Place, end: usize, room: &mut [u8]) -> Place
    ensures { BodyTurned false (place table) s.now p end room.old result room.new }
{
    let row = table.row();
    let top = row.top == 1;
    let fixed = row.fixed;
    let q = head(false, table, s, p, room);
    let t = top_loop(false, top, s, q, room);
    if fixed == 0 {
        return t;
    }
    entries_back(top, fixed, table, s, t, end, room)
}
