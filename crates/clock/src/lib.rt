// Times, durations and offsets as EN 300 468 writes them: a day as an MJD of 16 bits, hours, minutes and seconds as two BCD digits each.
#![tactic(auto)]

pub mod duration;
mod field;
pub mod offset;
pub mod time;

// What is wrong with a field, and the place of its first byte. A field read by itself has the place 0.
#[derive(Clone, Copy, PartialEq, Eq, Debug)]
pub enum Fault {
    // 63: a BCD digit above 9. The first of them, in half bytes from the field's start: 0 is the high half of its first byte.
    BadDigit { place: usize, digit: u32 },
    // 64: an hour above 23, a minute or a second above 59.
    OutOfRange { place: usize },
    // 65: an MJD below 15,079.
    TooEarly { place: usize },
}

// Hours, minutes and seconds: a time of day or a duration.
#[derive(Clone, Copy)]
pub struct Hms {
    pub hour: u8,
    pub minute: u8,
    pub second: u8,
}
