// The collector, with its record as numbers.
ghost use Rattle.std.specs.Prelude.{◌≡◌};
ghost use Rattle.collector.specs.Collected.{fresh_record};
ghost use Rattle.cabinet.specs.Collect.{record_says, leaves, collecting};

use cabinet::collect::{CollectAnswer, Record};

#[unsafe(no_mangle)]
pub extern "C" fn lohitunga_fresh(pid: u16) -> Record
    ensures { result ≡ record_says (fresh_record pid) }
{
    cabinet::collect::lohitunga_fresh(pid)
}

#[unsafe(no_mangle)]
pub extern "C" fn lohitunga_collect(
    rec: &mut Record,
    hold: &mut [u8],
    out: &mut [u8],
    packet: &[u8],
) -> CollectAnswer
    ensures { leaves rec.new hold.new out.new result
        ≡ collecting rec.old hold.old out.old packet.now }
{
    cabinet::collect::lohitunga_collect(rec, hold, out, packet)
}
