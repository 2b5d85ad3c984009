// 0x48 service.
ghost use Rattle.writing.specs.Written.{Writes};
ghost use Rattle.write_texts.specs.Service.{service_written};

use writing::Refusal;

pub fn write(
    service_type: u8,
    provider: &[u8],
    name: &[u8],
    room: &mut [u8],
) -> Result<usize, Refusal>
    ensures { Writes (service_written (record {
      service_type = service_type;
      service_provider_name = provider.now;
      service_name = name.now;
    }))
        room.old result room.new }
{
    super::two::write(0x48, 1, service_type as u32, provider, name, room)
}
