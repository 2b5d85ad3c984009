// The packet writer: sections, a PID and a first counter go in, and packets come out.
ghost use Rattle.std.specs.Prelude.{◌≡◌};
ghost use Rattle.writer.specs.Written.{written};
ghost use Rattle.cabinet.specs.Packets.{packets_says};

use cabinet::packets::PacketsAnswer;

#[unsafe(no_mangle)]
pub extern "C" fn lohitunga_packets(
    pid: u16,
    counter: u8,
    sections: &[u8],
    sizes: &[usize],
    room: &mut [u8],
) -> PacketsAnswer
    ensures { (result ≡ packets_says
        (written pid counter sections.now sizes.now room.old).said)
        × (room.new
        ≡ (written pid counter sections.now sizes.now room.old).room) }
{
    cabinet::packets::lohitunga_packets(pid, counter, sections, sizes, room)
}
