// The delivery systems.
ghost use Rattle.desk.specs.Answers.{Called};
ghost use Rattle.desk.specs.Delivery.{cable_given, satellite_given, terrestrial_given};

use cabinet::delivery_readings::{Cable, Satellite, Terrestrial};
use desk::answers::WriteAnswer;

#[unsafe(no_mangle)]
pub extern "C" fn lohitunga_write_cable(cable: Cable, room: &mut [u8]) -> WriteAnswer
    ensures { Called (cable_given cable) room.old result room.new }
{
    desk::delivery_writers::lohitunga_write_cable(cable, room)
}

#[unsafe(no_mangle)]
pub extern "C" fn lohitunga_write_satellite(satellite: Satellite, room: &mut [u8]) -> WriteAnswer
    ensures { Called (satellite_given satellite) room.old result room.new }
{
    desk::delivery_writers::lohitunga_write_satellite(satellite, room)
}

#[unsafe(no_mangle)]
pub extern "C" fn lohitunga_write_terrestrial(
    terrestrial: Terrestrial,
    room: &mut [u8],
) -> WriteAnswer
    ensures { Called (terrestrial_given terrestrial) room.old result room.new }
{
    desk::delivery_writers::lohitunga_write_terrestrial(terrestrial, room)
}
