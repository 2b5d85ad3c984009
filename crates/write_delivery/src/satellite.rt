// 0x43 satellite delivery system.
ghost use Rattle.std.specs.Prelude.{◌≡◌, ◌<◌, ◌^◌};
ghost use Rattle.writing.specs.Fill.{below};
ghost use Rattle.writing.specs.Written.{Writes};
ghost use Rattle.write_delivery.specs.Inner.Middle.{system_bits, satellite_middle};
ghost use Rattle.write_delivery.specs.Satellite.{rollOff, system_bit, numbers, limits, satellite_written};

use crate::body::{put_body, rate_bits};
use delivery::satellite::{Satellite, System};
use writing::digits::to_bcd;
use writing::{Refusal, room_for};

fn roll_off(system: System) -> u8
    ensures { result ≡ rollOff system }
{
    match system {
        System::S => 0b00,
        System::S2 { roll_off } => roll_off,
    }
}

fn system_bit(system: System) -> u8
    ensures { result ≡ system_bit system }
{
    match system {
        System::S => 0,
        System::S2 { roll_off: _ } => 1,
    }
}

#[tactic(auto, unfolding(writing::specs::Fill::below))]
fn is_inside(f: Satellite) -> bool
    ensures { result ≡ below (numbers f) limits }
{
    f.frequency.0 < 100_000_000
        && f.orbital_position < 10_000
        && f.polarization < 4
        && roll_off(f.modulation_system) < 4
        && f.modulation_type < 4
        && f.symbol_rate < 10_000_000
        && f.fec_inner < 16
}

// The byte behind the orbital position. It is small whatever the fields are, so that a sum with it fits.
fn system_bits(f: Satellite) -> u32
    ensures { (result ≡ system_bits f) × (result < 2 ^ 16) }
{
    f.west_east_flag as u32 * 128
        + f.polarization as u32 * 32
        + roll_off(f.modulation_system) as u32 * 8
        + system_bit(f.modulation_system) as u32 * 4
        + f.modulation_type as u32
}

// The three bytes behind the frequency.
fn middle(f: Satellite) -> u32
    requires { f.orbital_position < 10 ^ 4 }
    ensures { result ≡ satellite_middle f }
{
    to_bcd(f.orbital_position) * 256 + system_bits(f)
}

pub fn write(f: Satellite, room: &mut [u8]) -> Result<usize, Refusal>
    ensures { Writes (satellite_written f) room.old result room.new }
{
    room_for(room)?;
    if !is_inside(f) {
        return Err(Refusal::Field);
    }
    let last = rate_bits(f.symbol_rate, f.fec_inner);
    put_body(room, 0x43, to_bcd(f.frequency.0), middle(f), last);
    Ok(13)
}
