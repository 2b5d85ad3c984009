// The parts of a section, and the sections of a room.
ghost use Rattle.std.specs.Prelude.{◌≡◌};
ghost use Rattle.tables.specs.Tables.{place};
ghost use Rattle.parts.specs.Names.{is_of, time_from, duration_from};
ghost use Rattle.parts.specs.Room.{next_section};
ghost use Rattle.parts.specs.Entries.{next_entry};
ghost use Rattle.parts.specs.Descriptors.{next_descriptor};
ghost use Rattle.cabinet.specs.Clock.{time_answer, duration_answer};
ghost use Rattle.cabinet.specs.Parts.{only, part_in, says, transport_in, extension_if, numbered, head_of, open_says};
ghost use Rattle.cabinet.specs.Parts.{section_says, id_if, stream_in, one_entry_says, entry_says, descriptor_says};

use crate::moments::{duration_answer, time_answer};
use crate::numbers::of_flag;
use crate::text_readings::Part;
use crate::times::{DurationAnswer, TimeAnswer};
use head::sub_tables::sub_table_of;
use parts::descriptors::next_descriptor;
use parts::entries::{Entry, next_entry};
use parts::names;
use parts::opening::open;
use parts::room::next_section;
use tables::{Table, numbered, table_of};
use wire::numbers::byte_at;

// What stands before the loops and entries, by name; 0 for what the table does not have.
#[repr(C)]
#[derive(Clone, Copy, Default)]
pub struct Head {
    pub table_id: u8,
    pub network_id: u16,
    pub bouquet_id: u16,
    pub service_id: u16,
    pub transport_stream_id: u16,
    pub original_network_id: u16,
    pub version_number: u8,
    pub current_next_indicator: u8,
    pub section_number: u8,
    pub last_section_number: u8,
}

#[repr(C)]
#[derive(Clone, Copy, Default)]
pub struct OpenAnswer {
    pub number: u32,
    pub place: usize,
    pub head: Head,
    pub utc_time: Part,
    pub top: Part,
    pub entries: Part,
}

#[repr(C)]
#[derive(Clone, Copy, Default)]
pub struct SectionStep {
    // 1 for a section.
    pub found: u8,
    pub section: Part,
    pub rest: Part,
}

#[repr(C)]
#[derive(Clone, Copy, Default)]
pub struct EntryStep {
    // 1 for an entry.
    pub found: u8,
    pub service_id: u16,
    pub event_id: u16,
    pub transport_stream_id: u16,
    pub original_network_id: u16,
    pub fixed: Part,
    pub start_time: Part,
    pub duration: Part,
    pub descriptors: Part,
    pub rest: Part,
}

#[repr(C)]
#[derive(Clone, Copy, Default)]
pub struct DescriptorStep {
    // 1 for a descriptor.
    pub found: u8,
    pub tag: u8,
    pub descriptor: Part,
    pub body: Part,
    pub rest: Part,
}

// A number that counts only where the flag says so.
fn only_if(flag: bool, number: u16) -> u16
    ensures { result ≡ only flag number }
{
    if flag { number } else { 0 }
}

fn part_in(part: Part) -> parts::Part
    ensures { result ≡ part_in part }
{
    parts::Part {
        start: part.start,
        size: part.size,
    }
}

fn part_says(part: parts::Part) -> Part
    ensures { result ≡ says part }
{
    Part {
        start: part.start,
        size: part.size,
    }
}

// Whether a section is of this table.
fn is_of(section: &[u8], table: Table) -> bool
    ensures { result ≡ is_of (place table) section.now }
{
    table_of(byte_at(section, 0)) == Some(table)
}

// SDT's is its extension.
#[tactic(auto, unfolding(crate::specs::Parts::transport_in))]
fn transport_in(section: &[u8]) -> u16
    ensures { result ≡ transport_in section.now }
{
    if is_of(section, Table::Sdt) {
        return head::extension_of(section);
    }
    sub_table_of(section).transport_stream_id
}

// The extension of a section of this table; 0 for another.
fn extension_if(section: &[u8], table: Table) -> u16
    ensures { result ≡ extension_if section.now (place table) }
{
    only_if(is_of(section, table), head::extension_of(section))
}

// A head with extension, version and section numbers.
fn numbered_head(section: &[u8]) -> Head
    ensures { result ≡ numbered section.now }
{
    Head {
        table_id: byte_at(section, 0),
        network_id: extension_if(section, Table::Nit),
        bouquet_id: extension_if(section, Table::Bat),
        service_id: extension_if(section, Table::Eit),
        transport_stream_id: transport_in(section),
        original_network_id: sub_table_of(section).original_network_id,
        version_number: head::version_of(section),
        current_next_indicator: of_flag(head::is_current(section)),
        section_number: head::number_of(section),
        last_section_number: head::last_of(section),
    }
}

// Of TDT and TOT nothing but the table_id counts.
#[tactic(auto, unfolding(crate::specs::Parts::head_of))]
fn head_of(section: &[u8]) -> Head
    ensures { result ≡ head_of section.now }
{
    let table_id = byte_at(section, 0);
    if numbered(table_of(table_id)) {
        return numbered_head(section);
    }
    Head {
        table_id,
        ..Head::default()
    }
}

// Of a section that is refused nothing is told.
#[unsafe(no_mangle)]
pub extern "C" fn lohitunga_open(section: &[u8]) -> OpenAnswer
    ensures { result ≡ open_says section.now }
{
    match open(section) {
        Ok(opened) => OpenAnswer {
            number: 0,
            place: 0,
            head: head_of(section),
            utc_time: part_says(opened.utc_time),
            top: part_says(opened.top),
            entries: part_says(opened.entries),
        },
        Err(refusal) => OpenAnswer {
            number: verdict::number(Err(refusal)) as u32,
            place: verdict::place(Err(refusal)),
            ..OpenAnswer::default()
        },
    }
}

#[unsafe(no_mangle)]
pub extern "C" fn lohitunga_next_section(room: &[u8], rest: Part) -> SectionStep
    ensures { result ≡ section_says rest (next_section room.now (part_in rest)) }
{
    match next_section(room, part_in(rest)) {
        Some(next) => SectionStep {
            found: 1,
            section: part_says(next.whole),
            rest: part_says(next.rest),
        },
        None => SectionStep {
            rest,
            ..SectionStep::default()
        },
    }
}

// The id of an entry of this table; 0 for another.
fn id_if(section: &[u8], table: Table, fixed: parts::Part) -> u16
    ensures { result ≡ id_if section.now (place table) fixed }
{
    only_if(is_of(section, table), names::id_in(section, fixed))
}

// The transport_stream_id of an entry of NIT or BAT; 0 for another.
#[tactic(auto, unfolding(crate::specs::Parts::stream_in))]
fn stream_in(section: &[u8], fixed: parts::Part) -> u16
    ensures { result ≡ stream_in section.now fixed }
{
    if is_of(section, Table::Nit) {
        return names::id_in(section, fixed);
    }
    id_if(section, Table::Bat, fixed)
}

fn entry_says(section: &[u8], entry: Entry) -> EntryStep
    ensures { result ≡ one_entry_says section.now entry }
{
    let fixed = entry.fixed;
    EntryStep {
        found: 1,
        service_id: id_if(section, Table::Sdt, fixed),
        event_id: id_if(section, Table::Eit, fixed),
        transport_stream_id: stream_in(section, fixed),
        original_network_id: names::network_in(section, fixed),
        fixed: part_says(fixed),
        start_time: part_says(names::start_in(section, fixed)),
        duration: part_says(names::duration_in(section, fixed)),
        descriptors: part_says(entry.descriptors),
        rest: part_says(entry.rest),
    }
}

#[unsafe(no_mangle)]
pub extern "C" fn lohitunga_next_entry(section: &[u8], rest: Part) -> EntryStep
    ensures { result ≡ entry_says section.now rest (next_entry section.now (part_in rest)) }
{
    match next_entry(section, part_in(rest)) {
        Some(entry) => entry_says(section, entry),
        None => EntryStep {
            rest,
            ..EntryStep::default()
        },
    }
}

#[unsafe(no_mangle)]
pub extern "C" fn lohitunga_next_descriptor(section: &[u8], rest: Part) -> DescriptorStep
    ensures { result ≡ descriptor_says rest (next_descriptor section.now (part_in rest)) }
{
    match next_descriptor(section, part_in(rest)) {
        Some(next) => DescriptorStep {
            found: 1,
            tag: next.tag,
            descriptor: part_says(next.whole),
            body: part_says(next.body),
            rest: part_says(next.rest),
        },
        None => DescriptorStep {
            rest,
            ..DescriptorStep::default()
        },
    }
}

#[unsafe(no_mangle)]
pub extern "C" fn lohitunga_time_from(bytes: &[u8]) -> TimeAnswer
    ensures { result ≡ time_answer (time_from bytes.now) }
{
    time_answer(names::time_from(bytes))
}

#[unsafe(no_mangle)]
pub extern "C" fn lohitunga_duration_from(bytes: &[u8]) -> DurationAnswer
    ensures { result ≡ duration_answer (duration_from bytes.now) }
{
    duration_answer(names::duration_from(bytes))
}
