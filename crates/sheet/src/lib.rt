// Content sheets: whether bytes are one.
#![tactic(auto)]

ghost use Rattle.std.specs.Prelude.{◌≡◌};
ghost use Rattle.wire.specs.Reading.{refused};
ghost use Rattle.tables.specs.Tables.{place};
ghost use Rattle.sheet.specs.Reads.{told, told_refusal, judged_sheet};
ghost use Rattle.sheet.specs.Inner.Places.{Known, number_of};
ghost use Rattle.sheet.specs.Inner.Lengths.{judged_length};

use tables::{Table, table_of};

mod read;
mod size;

// Why bytes are no sheet.
#[derive(Clone, Copy, PartialEq, Eq, Debug)]
pub enum Refusal {
    // 22: the sheet ends early.
    Early,
    // 23: table_id unknown.
    Unknown,
    // 24: a field too large, or the section number above the last.
    Wide,
    // 25: bytes after the sheet.
    After,
    // 26: section_length would pass its row.
    Long,
}

// Of a sheet the section_length of its section.
pub type Judged = Result<usize, Refusal>;

// Why reading from left to right stopped: 22 or 24.
#[derive(Clone, Copy)]
enum Fault {
    EndsEarly,
    TooWide,
}

impl From<Fault> for Refusal {
    ghost from_gives = { λ fault refusal. told_refusal refusal ≡ refused (number_of fault) };

    fn from(fault: Fault) -> Refusal {
        match fault {
            Fault::EndsEarly => Refusal::Early,
            Fault::TooWide => Refusal::Wide,
        }
    }
}

fn judge_length(most: usize, n: usize) -> Judged
    ensures { told result ≡ judged_length most n }
{
    if most < n {
        return Err(Refusal::Long);
    }
    Ok(n)
}

// A sheet whose table_id is in the table.
fn judge_known(sheet: &[u8], table: Table) -> Judged
    requires { Known sheet.now (place table) }
    ensures { told result ≡ judged_sheet sheet.now }
{
    let end = read::behind_id(sheet, 1, table)?;
    if end < sheet.len() {
        return Err(Refusal::After);
    }
    judge_length(table.row().most, size::section_length(sheet, table))
}

// "22 to 24 as read left to right, 25, 26"
pub fn judge(sheet: &[u8]) -> Judged
    ensures { told result ≡ judged_sheet sheet.now }
{
    if sheet.is_empty() {
        return Err(Refusal::Early);
    }
    let table = table_of(sheet[0]).ok_or(Refusal::Unknown)?;
    judge_known(sheet, table)
}
