// Document 01, "Tables that are known": six rows, which judge and writer both consult.
#![tactic(auto)]

ghost use Rattle.std.specs.Prelude.{◌≡◌, get_or, min};
ghost use Rattle.tables.specs.Tables.{between, holds, is_numbered, row_of, beside_ids, row_at, place, place_or_unknown, UNKNOWN};

// The tables in the order of their rows.
#[derive(Clone, Copy, PartialEq, Eq)]
pub enum Table {
    Nit,
    Sdt,
    Bat,
    Eit,
    Tdt,
    Tot,
}

// table_id from and to, a second table_id from and to; syntax bit; least and greatest section_length; bytes before the first loop or entry;
// entry's fixed bytes, 0 for none; 1 for a top loop; 1 for a CRC_32.
const ROWS: [[usize; 11]; 6] = [
    [0x40, 0x40, 0x41, 0x41, 1, 13, 1021, 8, 6, 1, 1],
    [0x42, 0x42, 0x46, 0x46, 1, 12, 1021, 11, 5, 0, 1],
    [0x4A, 0x4A, 0x4A, 0x4A, 1, 13, 1021, 8, 6, 1, 1],
    [0x4E, 0x6F, 0x4E, 0x6F, 1, 15, 4093, 14, 12, 0, 1],
    [0x70, 0x70, 0x70, 0x70, 0, 5, 5, 8, 0, 0, 0],
    [0x73, 0x73, 0x73, 0x73, 0, 11, 1021, 8, 0, 1, 1],
];

// What a row says of its tables beside their ids.
#[derive(Clone, Copy)]
pub struct Row {
    pub syntax: usize,
    pub least: usize,
    pub most: usize,
    pub before: usize,
    pub fixed: usize,
    pub top: usize,
    pub crc: usize,
}

fn within(low: usize, id: usize, high: usize) -> bool
    ensures { result ≡ between low id high }
{
    low <= id && id <= high
}

// The id lies in one of the row's two ranges.
#[tactic(auto, unfolding(crate::specs::Tables::holds))]
fn held_by(row: [usize; 11], id: usize) -> bool
    ensures { result ≡ holds row id }
{
    within(row[0], id, row[1]) || within(row[2], id, row[3])
}

// The place of the row that has a table_id; past the last where none has.
pub fn row_of(table_id: u8) -> usize
    ensures { result ≡ row_of table_id }
{
    let rows = ROWS;
    for i in 0..6 {
        if held_by(rows[i], table_id as usize) {
            return i;
        }
    }
    6
}

// The table that has a table_id, where one is known.
pub fn table_of(table_id: u8) -> Option<Table>
    ensures { place_or_unknown result ≡ row_of table_id }
{
    Table::at(row_of(table_id))
}

// Whether there is a table, and it is numbered.
pub fn numbered(table: Option<Table>) -> bool
    ensures { result ≡ is_numbered (place_or_unknown table) }
{
    match table {
        Some(table) => table.is_numbered(),
        None => false,
    }
}

// The same of the table whose row stands at a place.
pub fn is_numbered(row: usize) -> bool
    ensures { result ≡ is_numbered row }
{
    numbered(Table::at(row))
}

// What a table's row says beside its ids; zeros where there is none.
#[tactic(auto, unfolding(crate::specs::Tables::cell))]
pub fn row_for(table: Option<Table>) -> Row
    ensures { result ≡ row_at (place_or_unknown table) }
{
    match table {
        Some(table) => table.row(),
        None => beside_ids([0; 11]),
    }
}

// What the row at a place says; zeros past the last.
pub fn row_at(i: usize) -> Row
    ensures { result ≡ row_at i }
{
    row_for(Table::at(i))
}

fn beside_ids(row: [usize; 11]) -> Row
    ensures { result ≡ beside_ids (λ column. get_or row column 0) }
{
    Row {
        syntax: row[4],
        least: row[5],
        most: row[6],
        before: row[7],
        fixed: row[8],
        top: row[9],
        crc: row[10],
    }
}

impl Table {
    // The table whose row stands at a place; none past the last.
    pub fn at(place: usize) -> Option<Table>
        ensures { place_or_unknown result ≡ min place UNKNOWN }
    {
        match place {
            0 => Some(Table::Nit),
            1 => Some(Table::Sdt),
            2 => Some(Table::Bat),
            3 => Some(Table::Eit),
            4 => Some(Table::Tdt),
            5 => Some(Table::Tot),
            _ => None,
        }
    }

    // NIT, SDT, BAT, EIT: tables with an extension, a version and section numbers.
    pub fn is_numbered(self) -> bool
        ensures { result ≡ is_numbered (place self) }
    {
        match self {
            Table::Nit | Table::Sdt | Table::Bat | Table::Eit => true,
            Table::Tdt | Table::Tot => false,
        }
    }

    // Each place in ROWS is a constant, so that the compiler knows the row's numbers: for a place that is known only at run
    // time it would build all of ROWS on the stack, at each call.
    #[tactic(auto, unfolding(crate::specs::Tables::cell))]
    pub fn row(self) -> Row
        ensures { result ≡ row_at (place self) }
    {
        match self {
            Table::Nit => beside_ids(ROWS[0]),
            Table::Sdt => beside_ids(ROWS[1]),
            Table::Bat => beside_ids(ROWS[2]),
            Table::Eit => beside_ids(ROWS[3]),
            Table::Tdt => beside_ids(ROWS[4]),
            Table::Tot => beside_ids(ROWS[5]),
        }
    }
}
