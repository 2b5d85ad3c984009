// Both turns of content sheets.
ghost use Rattle.std.specs.Prelude.{◌≡◌, length};
ghost use Rattle.turn.specs.Turn.{to_section, to_sheet, answer, roomAfter};
ghost use Rattle.cabinet.specs.Sheets.{sheet_says, section_says};

use cabinet::sheets::{SectionAnswer, SheetAnswer};

#[unsafe(no_mangle)]
pub extern "C" fn lohitunga_to_sheet(section: &[u8], room: &mut [u8]) -> SheetAnswer
    ensures { (result ≡ sheet_says (answer (to_sheet (length room.old) section.now)))
        × (room.new ≡ roomAfter room.old (to_sheet (length room.old) section.now)) }
{
    cabinet::sheets::lohitunga_to_sheet(section, room)
}

#[unsafe(no_mangle)]
pub extern "C" fn lohitunga_to_section(sheet: &[u8], room: &mut [u8]) -> SectionAnswer
    ensures { (result ≡ section_says (answer (to_section (length room.old) sheet.now)))
        × (room.new ≡ roomAfter room.old (to_section (length room.old) sheet.now)) }
{
    cabinet::sheets::lohitunga_to_section(sheet, room)
}
