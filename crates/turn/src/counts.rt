// How many items fill their bytes, and how many bytes so many descriptors take. Each is right where the bytes are such items; it ends
// anyhow.
ghost use Rattle.tables.specs.Tables.{place};
ghost use Rattle.sheet.specs.Sheet.{descriptor};
ghost use Rattle.sheet.specs.Section.{section_entry};
ghost use Rattle.turn.specs.Inner.Ways.{NumberIn, SizeAt, EntrySizes};

use forms::past;
use tables::Table;
use wire::numbers::{byte_at, number16_at};
use wire::{length12_at, wide};

// The descriptors of a section's loop.
pub fn descriptors_in(bytes: &[u8]) -> usize
    ensures { NumberIn descriptor bytes.now result }
{
    let mut p: usize = 0;
    let mut k: usize = 0;
    while p < bytes.len() {
        p = past(p, 2 + wide(byte_at(bytes, p + 1)));
        k += 1;
    }
    k
}

// The entries of a section; each has `fixed` bytes, which end in its loop's length.
pub fn entries_in(bytes: &[u8], fixed: usize, table: Table) -> usize
    requires { EntrySizes fixed (place table) }
    ensures { NumberIn (section_entry (place table)) bytes.now result }
{
    let mut p: usize = 0;
    let mut k: usize = 0;
    while p < bytes.len() {
        let size = fixed + length12_at(bytes, past(p, fixed - 2));
        p = past(p, size);
        k += 1;
    }
    k
}

// The bytes of the descriptors of a sheet's list, whose number stands at the place `at`.
pub fn descriptors_size(s: &[u8], at: usize) -> usize
    ensures { SizeAt s.now at result }
{
    let number = number16_at(s, at);
    let mut n: usize = 0;
    for _ in 0..number {
        n = past(n, 2 + wide(byte_at(s, past(past(at, 3), n))));
    }
    n
}
