// The packet writer: sections, a PID and a first counter go in, and packets come out.
ghost use Rattle.std.specs.Prelude.{◌≡◌};
ghost use Rattle.writer.specs.Answer.{told};
ghost use Rattle.writer.specs.Written.{written};
ghost use Rattle.cabinet.specs.Packets.{packets_says};

#[repr(C)]
#[derive(Clone, Copy)]
pub struct PacketsAnswer {
    pub number: u32,
    pub packets: usize,
}

fn packets_number(a: writer::Answer) -> u32
    ensures { result ≡ (packets_says (told a)).number }
{
    match a {
        Ok(_) => 0,
        Err(refusal) => refusal.number() as u32,
    }
}

fn packets_told(a: writer::Answer) -> usize
    ensures { result ≡ (packets_says (told a)).packets }
{
    a.unwrap_or(0)
}

#[unsafe(no_mangle)]
pub extern "C" fn lohitunga_packets(
    pid: u16,
    counter: u8,
    sections: &[u8],
    sizes: &[usize],
    room: &mut [u8],
) -> PacketsAnswer
    ensures { (result ≡ packets_says
        (written pid counter sections.now sizes.now room.old).said)
        × (room.new
        ≡ (written pid counter sections.now sizes.now room.old).room) }
{
    let a = writer::write(pid, counter, sections, sizes, room);
    PacketsAnswer {
        number: packets_number(a),
        packets: packets_told(a),
    }
}
