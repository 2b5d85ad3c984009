// A packet by itself: whether it is refused, and where its payload begins.
#![tactic(auto)]

mod header;

ghost use Rattle.std.specs.Prelude.{◌≡◌, false};
ghost use Rattle.packet.specs.Refusals.{judged};
ghost use Rattle.packet.specs.Judgement.{number_of, meant};

// Refusals 41 to 49, in document 01's order. 42 and 43 are given by who has the rooms and the record.
#[derive(Clone, Copy, PartialEq, Eq)]
pub enum Refusal {
    NotAPacket = 41,
    Room,
    Unfit,
    Sync,
    Error,
    OtherPid,
    Scrambled,
    Adaptation,
    Pointer,
}

type Packet = [u8; 188];

impl Refusal {
    // Document 01's number.
    pub fn number(self) -> u8
        ensures { result ≡ number_of self }
    {
        self as u8
    }
}

// A packet with payload: where it begins. splice: discontinuity_indicator is set.
#[derive(Clone, Copy)]
pub struct Payload {
    pub splice: bool,
    pub start: bool,
    pub counter: u8,
    pub from: usize,
}

// What a packet that is not refused carries, whether or not it is a repeated one.
#[derive(Clone, Copy)]
pub enum Load {
    Bare { splice: bool },
    Payload(Payload),
}

// What a packet is, or why it is refused.
pub type Judgement = Result<Load, Refusal>;

// Refusals 41 and 44 to 49 of a packet of this PID.
#[tactic(auto, unfolding(crate::specs::Refusals::judged))]
pub fn judge(pid: u16, packet: &[u8]) -> Judgement
    ensures { meant result ≡ judged false false pid packet.now }
{
    match packet.as_array::<188>() {
        Some(packet) => header::addressed(pid, packet),
        None => Err(Refusal::NotAPacket),
    }
}
