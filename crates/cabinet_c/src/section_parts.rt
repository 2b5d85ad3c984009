// The parts of a section, and the sections of a room.
ghost use Rattle.std.specs.Prelude.{◌≡◌};
ghost use Rattle.parts.specs.Names.{time_from, duration_from};
ghost use Rattle.parts.specs.Room.{next_section};
ghost use Rattle.parts.specs.Entries.{next_entry};
ghost use Rattle.parts.specs.Descriptors.{next_descriptor};
ghost use Rattle.cabinet.specs.Clock.{time_answer, duration_answer};
ghost use Rattle.cabinet.specs.Parts.{part_in, open_says, section_says, entry_says, descriptor_says};

use cabinet::section_parts::{DescriptorStep, EntryStep, OpenAnswer, SectionStep};
use cabinet::text_readings::Part;
use cabinet::times::{DurationAnswer, TimeAnswer};

#[unsafe(no_mangle)]
pub extern "C" fn lohitunga_open(section: &[u8]) -> OpenAnswer
    ensures { result ≡ open_says section.now }
{
    cabinet::section_parts::lohitunga_open(section)
}

#[unsafe(no_mangle)]
pub extern "C" fn lohitunga_next_section(room: &[u8], rest: Part) -> SectionStep
    ensures { result ≡ section_says rest (next_section room.now (part_in rest)) }
{
    cabinet::section_parts::lohitunga_next_section(room, rest)
}

#[unsafe(no_mangle)]
pub extern "C" fn lohitunga_next_entry(section: &[u8], rest: Part) -> EntryStep
    ensures { result ≡ entry_says section.now rest (next_entry section.now (part_in rest)) }
{
    cabinet::section_parts::lohitunga_next_entry(section, rest)
}

#[unsafe(no_mangle)]
pub extern "C" fn lohitunga_next_descriptor(section: &[u8], rest: Part) -> DescriptorStep
    ensures { result ≡ descriptor_says rest (next_descriptor section.now (part_in rest)) }
{
    cabinet::section_parts::lohitunga_next_descriptor(section, rest)
}

#[unsafe(no_mangle)]
pub extern "C" fn lohitunga_time_from(bytes: &[u8]) -> TimeAnswer
    ensures { result ≡ time_answer (time_from bytes.now) }
{
    cabinet::section_parts::lohitunga_time_from(bytes)
}

#[unsafe(no_mangle)]
pub extern "C" fn lohitunga_duration_from(bytes: &[u8]) -> DurationAnswer
    ensures { result ≡ duration_answer (duration_from bytes.now) }
{
    cabinet::section_parts::lohitunga_duration_from(bytes)
}
