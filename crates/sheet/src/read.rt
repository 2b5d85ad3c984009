// A sheet read from left to right. Each function reads on from a place, and answers the place behind what it read.
ghost use Rattle.std.specs.Prelude.{◌≡◌, [], ◌∷◌};
ghost use Rattle.forms.specs.Form.{raw, each};
ghost use Rattle.forms.specs.Fields.{below, sheet_fields};
ghost use Rattle.forms.specs.Lists.{times, counted};
ghost use Rattle.tables.specs.Tables.{place};
ghost use Rattle.sheet.specs.Content.{head_of, entry_of, shape_of, has_top, side_of};
ghost use Rattle.sheet.specs.Content.Item.{numbers};
ghost use Rattle.sheet.specs.Sheet.{sheet_item, descriptor, sheet_entry, sheet_top, sheet_entries, behind_id};
ghost use Rattle.sheet.specs.Inner.Places.{Follows, Common};

use crate::Fault;
use tables::Table;

// ---- the pieces

fn plain(s: &[u8], at: usize, n: usize) -> Result<usize, Fault>
    ensures { Follows (raw n) s.now at result }
{
    if wire::less(s.len(), at) < n {
        return Err(Fault::EndsEarly);
    }
    Ok(at + n)
}

// A byte below n.
fn one_below(s: &[u8], at: usize, n: u8) -> Result<usize, Fault>
    ensures { Follows (below n) s.now at result }
{
    if s.len() <= at {
        return Err(Fault::EndsEarly);
    }
    if n <= s[at] {
        return Err(Fault::TooWide);
    }
    Ok(at + 1)
}

fn two_below(s: &[u8], at: usize, m: u8, n: u8) -> Result<usize, Fault>
    ensures { Follows (each below (m ∷ n ∷ [])) s.now at result }
{
    let second = one_below(s, at, m)?;
    one_below(s, second, n)
}

// "section number above last"
fn section_numbers(s: &[u8], at: usize) -> Result<usize, Fault>
    ensures { Follows (sheet_item numbers) s.now at result }
{
    if wire::less(s.len(), at) < 2 {
        return Err(Fault::EndsEarly);
    }
    let first = s[at];
    let last = s[at + 1];
    if last < first {
        return Err(Fault::TooWide);
    }
    Ok(at + 2)
}

fn descriptor(s: &[u8], at: usize) -> Result<usize, Fault>
    ensures { Follows descriptor s.now at result }
{
    let left = wire::less(s.len(), at);
    if left < 2 {
        return Err(Fault::EndsEarly);
    }
    let size = wire::wide(s[at + 1]);
    if left - 2 < size {
        return Err(Fault::EndsEarly);
    }
    Ok(at + 2 + size)
}

// So many descriptors.
fn descriptors_times(s: &[u8], at: usize, count: usize) -> Result<usize, Fault>
    ensures { Follows (times descriptor count) s.now at result }
{
    let mut p = at;
    for _ in 0..count {
        p = descriptor(s, p)?;
    }
    Ok(p)
}

fn descriptors(s: &[u8], at: usize) -> Result<usize, Fault>
    ensures { Follows (counted descriptor) s.now at result }
{
    if wire::less(s.len(), at) < 2 {
        return Err(Fault::EndsEarly);
    }
    let count = wire::numbers::number16_at(s, at) as usize;
    descriptors_times(s, at + 2, count)
}

// ---- by the table

// "NIT, BAT, TOT: count, descriptors as broadcast."
fn has_top(table: Table) -> bool
    ensures { result ≡ has_top (shape_of (place table)) }
{
    table.row().top == 1
}

// "NIT, BAT, SDT, EIT: extension id 2, version 1, current 1, section number 1, last 1."
fn common(s: &[u8], at: usize) -> Result<usize, Fault>
    ensures { Common s.now at result }
{
    let version = plain(s, at, 2)?;
    let numbers = two_below(s, version, 32, 2)?;
    section_numbers(s, numbers)
}

// "SDT adds original_network_id 2. EIT adds transport_stream_id 2, original_network_id 2, segment_last_section_number 1, last_table_id 1.
// TDT, TOT: time 5."
fn head(s: &[u8], at: usize, table: Table) -> Result<usize, Fault>
    ensures { Follows (each sheet_item (head_of (place table))) s.now at result }
{
    match table {
        Table::Nit | Table::Bat => common(s, at),
        Table::Sdt => {
            let network = common(s, at)?;
            plain(s, network, 2)
        }
        Table::Eit => {
            let stream = common(s, at)?;
            plain(s, stream, 6)
        }
        Table::Tdt | Table::Tot => plain(s, at, 5),
    }
}

fn top_loop(s: &[u8], at: usize, table: Table) -> Result<usize, Fault>
    ensures { Follows (sheet_top (place table)) s.now at result }
{
    if has_top(table) {
        return descriptors(s, at);
    }
    Ok(at)
}

// "An entry is NIT/BAT: transport_stream_id 2, original_network_id 2; SDT: service_id 2, schedule flag 1, present/following flag 1,
// running_status 1, free_CA_mode 1; EIT: event_id 2, start 5, duration 3, running_status 1, free_CA_mode 1": this is it up to
// running_status.
fn items(s: &[u8], at: usize, table: Table) -> Result<usize, Fault>
    ensures { Follows (each sheet_item (entry_of (place table))) s.now at result }
{
    match table {
        Table::Nit | Table::Bat => plain(s, at, 4),
        Table::Sdt => {
            let flags = plain(s, at, 2)?;
            two_below(s, flags, 2, 2)
        }
        Table::Eit => plain(s, at, 10),
        Table::Tdt | Table::Tot => Ok(at),
    }
}

// What stands beside an entry's loop: running_status and free_CA_mode, or bits that no sheet has.
fn side(s: &[u8], at: usize, table: Table) -> Result<usize, Fault>
    ensures { Follows (sheet_fields (side_of (place table))) s.now at result }
{
    if has_top(table) {
        return Ok(at);
    }
    two_below(s, at, 8, 2)
}

fn entry(s: &[u8], at: usize, table: Table) -> Result<usize, Fault>
    ensures { Follows (sheet_entry (place table)) s.now at result }
{
    let beside = items(s, at, table)?;
    let list = side(s, beside, table)?;
    descriptors(s, list)
}

// So many entries.
fn entries_times(s: &[u8], at: usize, count: usize, table: Table) -> Result<usize, Fault>
    ensures { Follows (times (sheet_entry (place table)) count) s.now at result }
{
    let mut p = at;
    for _ in 0..count {
        p = entry(s, p, table)?;
    }
    Ok(p)
}

fn entries(s: &[u8], at: usize, table: Table) -> Result<usize, Fault>
    ensures { Follows (sheet_entries (place table)) s.now at result }
{
    if !table.is_numbered() {
        return Ok(at);
    }
    if wire::less(s.len(), at) < 2 {
        return Err(Fault::EndsEarly);
    }
    let count = wire::numbers::number16_at(s, at) as usize;
    entries_times(s, at + 2, count, table)
}

// All behind the table_id.
pub fn behind_id(s: &[u8], at: usize, table: Table) -> Result<usize, Fault>
    ensures { Follows (behind_id (place table)) s.now at result }
{
    let top = head(s, at, table)?;
    let list = top_loop(s, top, table)?;
    entries(s, list, table)
}
