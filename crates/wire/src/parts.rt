// Parts of the caller's bytes, as much of them as there is.
ghost use Rattle.std.specs.Prelude.{◌≡◌, take, drop};

// What follows the first n bytes.
pub fn after(s: &[u8], n: usize) -> &[u8]
    ensures { result.now ≡ drop n s.now }
{
    if n < s.len() { &s[n..] } else { &s[..0] }
}

// The first n bytes.
fn first(s: &[u8], n: usize) -> &[u8]
    ensures { result.now ≡ take n s.now }
{
    if n < s.len() { &s[..n] } else { s }
}

// The n bytes from a place on.
pub fn part(s: &[u8], at: usize, n: usize) -> &[u8]
    ensures { result.now ≡ take n (drop at s.now) }
{
    first(after(s, at), n)
}
