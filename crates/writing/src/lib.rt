// What the writers of descriptors share: the refusals, numbers as bytes, numbers in BCD, numbers of either sign.
#![tactic(auto)]

ghost use Rattle.std.specs.Prelude.{◌≡◌, ◌<◌, ◌≤◌, length, MatchResult};

pub mod digits;
pub mod numbers;
pub mod rows;

// Why a writer writes nothing; else it answers how many bytes the descriptor has, at the room's start.
#[derive(Clone, Copy, PartialEq, Eq, Debug)]
pub enum Refusal {
    // 111: room under 257.
    Room,
    // 112: a field outside its layout.
    Field,
    // 113: body over 255 bytes.
    Long,
}

// A writer asks for the room of the longest descriptor before it looks at a field.
pub fn room_for(room: &[u8]) -> Result<(), Refusal>
    ensures { MatchResult result (λ _. 257 ≤ length room.now)
        (λ e. (e ≡ Refusal.Room) × (length room.now < 257)) }
{
    if room.len() < 257 {
        return Err(Refusal::Room);
    }
    Ok(())
}
