// 0x5A terrestrial delivery system.
ghost use Rattle.std.specs.Prelude.{◌≡◌, ◌<◌, ◌^◌};
ghost use Rattle.delivery.specs.Terrestrial.{layout, shown};
ghost use Rattle.writing.specs.Fill.{below, capacities};
ghost use Rattle.writing.specs.Written.{Writes};
ghost use Rattle.write_delivery.specs.Terrestrial.{terrestrial_written};
ghost use Rattle.write_delivery.specs.Inner.Middle.{first_bits, second_bits, third_bits, terrestrial_middle};

use crate::body::put_body;
use delivery::terrestrial::Terrestrial;
use writing::{Refusal, room_for};

#[tactic(auto, unfolding(writing::specs::Fill::below))]
fn is_inside(f: Terrestrial) -> bool
    ensures { result ≡ below (shown f) (capacities layout) }
{
    f.bandwidth < 8
        && f.constellation < 4
        && f.hierarchy_information < 8
        && f.code_rate_hp_stream < 8
        && f.code_rate_lp_stream < 8
        && f.guard_interval < 4
        && f.transmission_mode < 4
}

// The three bytes behind the frequency, one by one. Each is small whatever the fields are, so that their sum fits.
fn first_bits(f: Terrestrial) -> u32
    ensures { (result ≡ first_bits f) × (result < 2 ^ 15) }
{
    f.bandwidth as u32 * 32
        + f.priority as u32 * 16
        + f.time_slicing_indicator as u32 * 8
        + f.mpe_fec_indicator as u32 * 4
        + 3
}

fn second_bits(f: Terrestrial) -> u32
    ensures { (result ≡ second_bits f) × (result < 2 ^ 15) }
{
    f.constellation as u32 * 64 + f.hierarchy_information as u32 * 8 + f.code_rate_hp_stream as u32
}

fn third_bits(f: Terrestrial) -> u32
    ensures { (result ≡ third_bits f) × (result < 2 ^ 15) }
{
    f.code_rate_lp_stream as u32 * 32
        + f.guard_interval as u32 * 8
        + f.transmission_mode as u32 * 2
        + f.other_frequency_flag as u32
}

// All three.
fn middle(f: Terrestrial) -> u32
    ensures { result ≡ terrestrial_middle f }
{
    first_bits(f) * 0x1_0000 + second_bits(f) * 0x100 + third_bits(f)
}

pub fn write(f: Terrestrial, room: &mut [u8]) -> Result<usize, Refusal>
    ensures { Writes (terrestrial_written f) room.old result room.new }
{
    room_for(room)?;
    if !is_inside(f) {
        return Err(Refusal::Field);
    }
    put_body(room, 0x5A, f.centre_frequency.0, middle(f), 0xFFFF_FFFF);
    Ok(13)
}
