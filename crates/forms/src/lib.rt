// Bytes put into a lent room, and the places of what is read and written.
#![tactic(auto)]

ghost use Rattle.std.specs.Prelude.{◌≡◌, [], ◌∷◌};
ghost use Rattle.forms.specs.Room.{put, sum};

// Where a value stands in the bytes that are read, and where it goes in the room.
#[derive(Clone, Copy)]
pub struct Place {
    pub at: usize,
    pub to: usize,
}

// The place n bytes on, or the greatest number where there is no such place.
#[tactic(auto, unfolding(crate::specs::Room::sum))]
pub fn past(at: usize, n: usize) -> usize
    ensures { result ≡ sum at n }
{
    at.saturating_add(n)
}

#[tactic(auto, unfolding(crate::specs::Room::put))]
pub fn put_byte(room: &mut [u8], to: usize, b: u8)
    ensures { room.new ≡ put room.old to (b ∷ []) }
{
    if to < room.len() {
        room[to] = b;
    }
}
