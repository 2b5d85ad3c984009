// 0x44 cable delivery system.
ghost use Rattle.std.specs.Prelude.{◌≡◌};
ghost use Rattle.writing.specs.Fill.{below};
ghost use Rattle.writing.specs.Written.{Writes};
ghost use Rattle.write_delivery.specs.Cable.{numbers, limits, cable_written};
ghost use Rattle.write_delivery.specs.Inner.Middle.{cable_middle};

use crate::body::{put_body, rate_bits};
use delivery::cable::Cable;
use writing::digits::to_bcd;
use writing::{Refusal, room_for};

#[tactic(auto, unfolding(writing::specs::Fill::below))]
fn is_inside(f: Cable) -> bool
    ensures { result ≡ below (numbers f) limits }
{
    f.frequency.0 < 100_000_000
        && f.fec_outer < 16
        && f.symbol_rate < 10_000_000
        && f.fec_inner < 16
}

// The three bytes behind the frequency.
fn middle(f: Cable) -> u32
    ensures { result ≡ cable_middle f }
{
    0xFF_F000 + f.fec_outer as u32 * 256 + f.modulation as u32
}

pub fn write(f: Cable, room: &mut [u8]) -> Result<usize, Refusal>
    ensures { Writes (cable_written f) room.old result room.new }
{
    room_for(room)?;
    if !is_inside(f) {
        return Err(Refusal::Field);
    }
    let last = rate_bits(f.symbol_rate, f.fec_inner);
    put_body(room, 0x44, to_bcd(f.frequency.0), middle(f), last);
    Ok(13)
}
