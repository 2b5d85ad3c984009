// Both turns of content sheets.
ghost use Rattle.std.specs.Prelude.{◌≡◌, length};
ghost use Rattle.turn.specs.Turn.{to_section, to_sheet, answer, roomAfter};
ghost use Rattle.turn.specs.Answers.{toldSheet, toldSection};
ghost use Rattle.cabinet.specs.Sheets.{sheet_says, section_says};

use sheet::Refusal;
use turn::{SectionRefusal, SheetRefusal};

#[repr(C)]
#[derive(Clone, Copy)]
pub struct SheetAnswer {
    pub number: u32,
    pub place: usize,
    pub size: usize,
}

#[repr(C)]
#[derive(Clone, Copy)]
pub struct SectionAnswer {
    pub number: u32,
    pub size: usize,
}

fn sheet_refused(refusal: SheetRefusal) -> SheetAnswer
    ensures { result ≡ sheet_says (toldSheet (Err refusal)) }
{
    match refusal {
        SheetRefusal::Room => SheetAnswer {
            number: 21,
            place: 0,
            size: 0,
        },
        SheetRefusal::Section(refusal) => SheetAnswer {
            number: verdict::number(Err(refusal)) as u32,
            place: verdict::place(Err(refusal)),
            size: 0,
        },
    }
}

fn sheet_told(a: Result<usize, SheetRefusal>) -> SheetAnswer
    ensures { result ≡ sheet_says (toldSheet a) }
{
    match a {
        Ok(size) => SheetAnswer {
            number: 0,
            place: 0,
            size,
        },
        Err(refusal) => sheet_refused(refusal),
    }
}

fn section_number(refusal: SectionRefusal) -> u32
    ensures { result ≡ (section_says (toldSection (Err refusal))).number }
{
    match refusal {
        SectionRefusal::Room => 21,
        SectionRefusal::Sheet(Refusal::Early) => 22,
        SectionRefusal::Sheet(Refusal::Unknown) => 23,
        SectionRefusal::Sheet(Refusal::Wide) => 24,
        SectionRefusal::Sheet(Refusal::After) => 25,
        SectionRefusal::Sheet(Refusal::Long) => 26,
    }
}

fn section_told(a: Result<usize, SectionRefusal>) -> SectionAnswer
    ensures { result ≡ section_says (toldSection a) }
{
    match a {
        Ok(size) => SectionAnswer { number: 0, size },
        Err(refusal) => SectionAnswer {
            number: section_number(refusal),
            size: 0,
        },
    }
}

#[unsafe(no_mangle)]
pub extern "C" fn lohitunga_to_sheet(section: &[u8], room: &mut [u8]) -> SheetAnswer
    ensures { (result ≡ sheet_says (answer (to_sheet (length room.old) section.now)))
        × (room.new ≡ roomAfter room.old (to_sheet (length room.old) section.now)) }
{
    sheet_told(turn::to_sheet(section, room))
}

#[unsafe(no_mangle)]
pub extern "C" fn lohitunga_to_section(sheet: &[u8], room: &mut [u8]) -> SectionAnswer
    ensures { (result ≡ section_says (answer (to_section (length room.old) sheet.now)))
        × (room.new ≡ roomAfter room.old (to_section (length room.old) sheet.now)) }
{
    section_told(turn::to_section(sheet, room))
}
