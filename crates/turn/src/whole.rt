// A whole section or sheet, at the room's start.
ghost use Rattle.std.specs.Prelude.{◌≡◌, ◌-◌, get_or};
ghost use Rattle.tables.specs.Tables.{row_of};
ghost use Rattle.turn.specs.Inner.Bodies.{crc_size, leading_of, begun, sealed, SectionWritten, SheetWritten};

use crate::bodies::{body_back, body_forth};
use crate::descriptors::put_number;
use forms::{Place, past, put_byte};
use tables::table_of;
use wire::less;
use wire::numbers::byte_at;
use wire::parts::part;

// The syntax bit and the reserved bits before section_length, in two bytes.
fn leading(syntax: usize) -> usize
    ensures { result ≡ leading_of syntax }
{
    if syntax == 1 { 0xF000 } else { 0x7000 }
}

// Where the CRC_32 stands, or the end, where the table has none.
fn body_end(length: usize, crc: usize) -> usize
    ensures { result ≡ length - crc_size crc }
{
    if crc == 1 { less(length, 4) } else { length }
}

// The table_id, and section_length with the bits before it.
fn begin(room: &mut [u8], id: u8, syntax: usize, n: usize)
    ensures { room.new ≡ begun room.old id syntax n }
{
    put_byte(room, 0, id);
    put_number(room, 1, past(leading(syntax), n));
}

// The CRC_32 of what stands before the place `end` is put there, where the table has one.
fn seal(room: &mut [u8], end: usize, crc: usize)
    ensures { room.new ≡ sealed room.old end crc }
{
    if crc == 1 {
        let register = crc::crc32(part(room, 0, end)) as usize;
        put_number(room, end, register / 65536);
        put_number(room, past(end, 2), register % 65536);
    }
}

// The section of a sheet that was judged; n is its section_length.
pub fn write_section(sheet: &[u8], n: usize, room: &mut [u8])
    ensures { SectionWritten sheet.now n (row_of (get_or sheet.now 0 0)) room.old room.new }
{
    let id = byte_at(sheet, 0);
    let Some(table) = table_of(id) else {
        return;
    };
    let row = table.row();
    let end = body_end(past(n, 3), row.crc);
    begin(room, id, row.syntax, n);
    body_forth(table, sheet, Place { at: 1, to: 3 }, end, room);
    seal(room, end, row.crc);
}

// The sheet of a section that was judged, and its length.
pub fn write_sheet(section: &[u8], room: &mut [u8]) -> usize
    ensures { SheetWritten section.now (row_of (get_or section.now 0 0)) room.old result room.new }
{
    let id = byte_at(section, 0);
    let Some(table) = table_of(id) else {
        return 0;
    };
    let row = table.row();
    let end = body_end(section.len(), row.crc);
    put_byte(room, 0, id);
    let q = body_back(table, section, Place { at: 3, to: 1 }, end, room);
    q.to
}
