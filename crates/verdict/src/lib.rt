// What the judge answers, and document 01's number and place for it.
#![tactic(auto)]

ghost use Rattle.std.specs.Prelude.{◌≡◌};
ghost use Rattle.verdict.specs.Verdict.{told, is_accepted, number_of, place_of};

#[derive(Clone, Copy, PartialEq, Eq)]
pub enum Refusal {
    // 1: fewer than 3 bytes.
    TooShort,
    // 2: table_id not in the table.
    UnknownTable,
    // 3: wrong syntax bit.
    WrongSyntax,
    // 4: section_length outside its row.
    LengthOutside,
    // 5: bytes given are not 3 + section_length.
    SizeDiffers,
    // 6: CRC register not zero.
    CrcFails,
    // 7: section_number above last_section_number.
    NumberAboveLast,
    // 8: a loop reaches past its container; place of its length.
    LoopPast(usize),
    // 9: a descriptor reaches past its loop, or one byte is left; place of its tag.
    DescriptorPast(usize),
    // 10: fewer bytes left than an entry's fixed part, or bytes between loop and CRC; place of the first of them.
    BytesLeft(usize),
}

// Accepted, or why not.
pub type Verdict = Result<(), Refusal>;

pub fn is_accepted(v: Verdict) -> bool
    ensures { result ≡ is_accepted (told v) }
{
    v.is_ok()
}

// The refusal's number; 0 where the section is accepted.
pub fn number(v: Verdict) -> u8
    ensures { result ≡ number_of (told v) }
{
    match v {
        Ok(()) => 0,
        Err(Refusal::TooShort) => 1,
        Err(Refusal::UnknownTable) => 2,
        Err(Refusal::WrongSyntax) => 3,
        Err(Refusal::LengthOutside) => 4,
        Err(Refusal::SizeDiffers) => 5,
        Err(Refusal::CrcFails) => 6,
        Err(Refusal::NumberAboveLast) => 7,
        Err(Refusal::LoopPast(_)) => 8,
        Err(Refusal::DescriptorPast(_)) => 9,
        Err(Refusal::BytesLeft(_)) => 10,
    }
}

// The refusal's place, counted from the section's first byte as 0; 0 where it carries none.
pub fn place(v: Verdict) -> usize
    ensures { result ≡ place_of (told v) }
{
    match v {
        Err(Refusal::LoopPast(p)) => p,
        Err(Refusal::DescriptorPast(p)) => p,
        Err(Refusal::BytesLeft(p)) => p,
        _ => 0,
    }
}
