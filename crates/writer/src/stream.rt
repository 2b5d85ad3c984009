// The packets of one PID.
ghost use Rattle.std.specs.Prelude.{◌≡◌, ◌+◌, ◌%◌, ◌≤◌, if◌then◌else◌};
ghost use Rattle.writer.specs.Packets.{header_of};

// Their PID, of 13 bits, and the counter of the next of them, of 4.
#[derive(Clone, Copy)]
pub struct Stream {
    pub pid: u16,
    pub counter: u8,
    ghost pid_small: { pid ≤ 8191 },
    ghost counter_small: { counter ≤ 15 },
}

// The start flag in byte 1.
fn flag(start: bool) -> u8
    ensures { result ≡ (if start then 0x40 else 0) }
{
    if start { 0x40 } else { 0 }
}

impl Stream {
    // The four bytes before the payload: no error, no priority, not scrambled, adaptation control 01.
    pub fn header(self, start: bool) -> [u8; 4]
        ensures { result ≡ header_of self.pid self.counter start }
    {
        [
            0x47,
            flag(start) + (self.pid / 256) as u8,
            (self.pid % 256) as u8,
            0x10 + self.counter,
        ]
    }

    // Behind one packet more.
    pub fn next(self) -> Stream
        ensures { (result.pid ≡ self.pid) × (result.counter ≡ (self.counter + 1) % 16) }
    {
        Stream {
            pid: self.pid,
            counter: (self.counter + 1) % 16,
        }
    }
}
