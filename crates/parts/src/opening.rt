// A section that is accepted, opened: where its time, its top loop and its entries stand.
ghost use Rattle.std.specs.Prelude.{◌≡◌, ◌<◌};
ghost use Rattle.tables.specs.Tables.{place_or_unknown};
ghost use Rattle.parts.specs.Opening.{utc_of, top_of, entries_of, Opens};

use crate::{Part, no_part};
use section::judge::{before_crc, judge};
use tables::{Row, Table, numbered, row_for, table_of};
use verdict::Refusal;

#[derive(Clone, Copy)]
pub struct Opened {
    // UTC_time of TDT and TOT.
    pub utc_time: Part,
    // The top loop of NIT, BAT and TOT.
    pub top: Part,
    // The entries of NIT, BAT, SDT and EIT.
    pub entries: Part,
}

#[tactic(auto, unfolding(crate::specs::Opening::utc_of))]
fn utc_of(table: Option<Table>) -> Part
    ensures { result ≡ utc_of (place_or_unknown table) }
{
    if numbered(table) {
        return no_part();
    }
    Part { start: 3, size: 5 }
}

#[tactic(auto, unfolding(crate::specs::Opening::top_of))]
fn top_of(row: Row, section: &[u8]) -> Part
    requires { row.before < 256 }
    ensures { result ≡ top_of row section.now }
{
    let at = row.before;
    if row.top == 1 {
        return Part {
            start: at + 2,
            size: wire::length12_at(section, at),
        };
    }
    no_part()
}

#[tactic(auto, unfolding(crate::specs::Opening::entries_of))]
fn entries_of(row: Row, section: &[u8]) -> Part
    requires { row.before < 256 }
    ensures { result ≡ entries_of row section.now }
{
    let at = row.before;
    let end = before_crc(row, section).len();
    if row.fixed == 0 {
        return no_part();
    }
    if row.top == 1 {
        let start = at + 2 + wire::length12_at(section, at) + 2;
        return Part {
            start,
            size: wire::less(end, start),
        };
    }
    Part {
        start: at,
        size: wire::less(end, at),
    }
}

// The parts of a section, or the judge's refusal.
pub fn open(section: &[u8]) -> Result<Opened, Refusal>
    ensures { Opens section.now result }
{
    judge(section)?;
    let table = table_of(wire::numbers::byte_at(section, 0));
    let row = row_for(table);
    Ok(Opened {
        utc_time: utc_of(table),
        top: top_of(row, section),
        entries: entries_of(row, section),
    })
}
