// The entries of a table, and its top loop.
ghost use Rattle.std.specs.Prelude.{◌≡◌, true, false, not};
ghost use Rattle.tables.specs.Tables.{place};
ghost use Rattle.forms.specs.Lists.{times};
ghost use Rattle.forms.specs.Inner.Turning.{Turned};
ghost use Rattle.sheet.specs.Content.{side_of};
ghost use Rattle.turn.specs.Inner.Fields.{Shape};
ghost use Rattle.turn.specs.Inner.Ways.{top_if, entry_from, entry_to, behind_own, own_size, ownPut, withEntries, EntriesTurned, EntrySizes};

use crate::counts::entries_in;
use crate::descriptors::{put_number, turn_loop};
use crate::heads::entry_fields;
use forms::{Place, past};
use tables::Table;
use wire::numbers::number16_at;
use wire::parts::part;
use wire::{length12_at, less};

// The span of what stands beside an entry's loop length: in tables without a top loop running_status, below 8, and free_CA_mode.
fn side(table: Table) -> u8
    ensures { Shape (side_of (place table)) result 16 }
{
    match table {
        Table::Nit | Table::Bat | Table::Tot => 0,
        _ => 8,
    }
}

fn entry(forth: bool, table: Table, s: &[u8], p: Place, room: &mut [u8]) -> Place
    ensures { Turned (entry_from forth (place table)) (entry_to forth (place table)) s.now p room.old result room.new }
{
    let q = entry_fields(forth, table, s, p, room);
    turn_loop(forth, side(table), s, q, room)
}

fn entries(forth: bool, table: Table, number: usize, s: &[u8], p: Place, room: &mut [u8]) -> Place
    ensures { Turned (times (entry_from forth (place table)) number) (times (entry_to forth (place table)) number)
        s.now p room.old result room.new }
{
    let mut q = p;
    for _ in 0..number {
        q = entry(forth, table, s, q, room);
    }
    q
}

// The place of the first entry: where the table has a top loop the entries have a length of their own.
fn behind_own(top: bool, at: usize) -> usize
    ensures { result ≡ behind_own top at }
{
    if top {
        return past(at, 2);
    }
    at
}

// The bytes of a section's entries: those of their own length, or those up to the place `end`.
fn own_size(top: bool, s: &[u8], at: usize, end: usize) -> usize
    ensures { result ≡ own_size top s.now at end }
{
    if top {
        return length12_at(s, at);
    }
    less(end, at)
}

// That length, where the entries go up to the place `end`.
fn put_own(top: bool, room: &mut [u8], to: usize, end: usize)
    ensures { room.new ≡ ownPut top room.old to end }
{
    if top {
        put_number(room, to, past(0xF000, less(end, past(to, 2))));
    }
}

// Entries into a section, which has room for them up to the place `end`.
pub fn entries_forth(
    top: bool,
    table: Table,
    s: &[u8],
    p: Place,
    end: usize,
    room: &mut [u8],
) -> Place
    ensures { EntriesTurned true (withEntries top) (place table) s.now p end room.old result room.new }
{
    let number = number16_at(s, p.at) as usize;
    let first = Place {
        at: past(p.at, 2),
        to: behind_own(top, p.to),
    };
    put_own(top, room, p.to, end);
    entries(true, table, number, s, first, room)
}

// Entries into a sheet. Where they have no length of their own they end at the place `end`.
pub fn entries_back(
    top: bool,
    fixed: usize,
    table: Table,
    s: &[u8],
    p: Place,
    end: usize,
    room: &mut [u8],
) -> Place
    requires { EntrySizes fixed (place table) }
    ensures { EntriesTurned false (withEntries top) (place table) s.now p end room.old result room.new }
{
    let at = behind_own(top, p.at);
    let number = entries_in(part(s, at, own_size(top, s, p.at, end)), fixed, table);
    let first = Place {
        at,
        to: past(p.to, 2),
    };
    put_number(room, p.to, number);
    entries(false, table, number, s, first, room)
}

// The top loop is turned as one entry of TOT: it has no entries, so that its row gives them no fields. A loop is so turned from one
// place alone, and its code stands there.
pub fn top_loop(forth: bool, top: bool, s: &[u8], p: Place, room: &mut [u8]) -> Place
    ensures { Turned (top_if forth top) (top_if (not forth) top) s.now p room.old result room.new }
{
    if top {
        return entries(forth, Table::Tot, 1, s, p, room);
    }
    p
}
