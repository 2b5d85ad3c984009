// Document 01, "Content sheets": a sheet becomes a section, and a section a sheet.
#![tactic(auto)]

ghost use Rattle.std.specs.Prelude.{◌≡◌};
ghost use Rattle.turn.specs.Promise.{ToSection, ToSheet};
ghost use Rattle.turn.specs.declared.SectionRefusal.TheVariants as section;
ghost use Rattle.turn.specs.declared.SheetRefusal.TheVariants as sheet;

use section::judge::judge;
use whole::{write_section, write_sheet};

mod bodies;
mod counts;
mod descriptors;
mod entries;
mod heads;
mod pieces;
mod whole;

// Why no section was made of a sheet.
#[derive(Clone, Copy, PartialEq, Eq, Debug)]
pub enum SectionRefusal {
    // 21: room under 4,096.
    Room,
    // 22 to 26.
    Sheet(sheet::Refusal),
}

impl From<sheet::Refusal> for SectionRefusal {
    ghost from_gives = { λ r refusal. refusal ≡ section.Sheet r };

    fn from(refusal: sheet::Refusal) -> SectionRefusal {
        SectionRefusal::Sheet(refusal)
    }
}

// Why no sheet was made of a section.
#[derive(Clone, Copy, PartialEq, Eq)]
pub enum SheetRefusal {
    // 21: room under 5,120.
    Room,
    // 1 to 10.
    Section(verdict::Refusal),
}

impl From<verdict::Refusal> for SheetRefusal {
    ghost from_gives = { λ r refusal. refusal ≡ sheet.Section r };

    fn from(refusal: verdict::Refusal) -> SheetRefusal {
        SheetRefusal::Section(refusal)
    }
}

// The section is at the room's start; this is its size.
pub fn to_section(sheet: &[u8], room: &mut [u8]) -> Result<usize, SectionRefusal>
    ensures { ToSection sheet.now room.old result room.new }
{
    if room.len() < 4096 {
        return Err(SectionRefusal::Room);
    }
    let n = sheet::judge(sheet)?;
    write_section(sheet, n, room);
    Ok(forms::past(n, 3))
}

// The sheet is at the room's start; this is its size.
pub fn to_sheet(section: &[u8], room: &mut [u8]) -> Result<usize, SheetRefusal>
    ensures { ToSheet section.now room.old result room.new }
{
    if room.len() < 5120 {
        return Err(SheetRefusal::Room);
    }
    judge(section)?;
    Ok(write_sheet(section, room))
}
