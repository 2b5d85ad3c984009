// Which sections can be sent.
ghost use Rattle.std.specs.Prelude.{◌≡◌};
ghost use Rattle.writer.specs.Cut.{sendable, fit};

// No length is trusted before it is measured.
fn can_go(section: &[u8]) -> bool
    ensures { result ≡ sendable section.now }
{
    let size = section.len();
    3 <= size
        && size == 3 + wire::length12(section[1], section[2])
        && size <= 4096
        && section[0] != 255
}

// 102: each size is held against the bytes that are left, and sizes are never added.
pub fn fits(bytes: &[u8], sizes: &[usize]) -> bool
    ensures { result ≡ fit sizes.now bytes.now }
{
    let mut left = bytes;
    for &size in sizes {
        if left.len() < size || !can_go(&left[..size]) {
            return false;
        }
        left = &left[size..];
    }
    left.is_empty()
}
