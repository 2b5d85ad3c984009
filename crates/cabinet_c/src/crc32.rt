// CRC_32.
ghost use Rattle.std.specs.Prelude.{◌≡◌};
ghost use Rattle.crc.specs.Crc.{crc};

#[unsafe(no_mangle)]
pub extern "C" fn lohitunga_crc32(bytes: &[u8]) -> u32
    ensures { result ≡ crc bytes.now }
{
    cabinet::crc32::lohitunga_crc32(bytes)
}
