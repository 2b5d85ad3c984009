// Numbers of either sign, in rows.
ghost use Rattle.std.specs.Prelude.{◌≡◌, get_or, pos};
ghost use Rattle.writing.specs.Rows.{sized};

// A number by its sign and its size.
#[derive(Clone, Copy)]
pub struct Sized {
    pub below_zero: bool,
    pub size: u32,
}

// The number at a place, or 0 where there is none.
pub fn sized_at(numbers: &[i32], at: usize) -> Sized
    ensures { result ≡ sized (get_or numbers.now at (pos 0)) }
{
    match numbers.get(at) {
        Some(&z) => Sized {
            below_zero: z < 0,
            size: z.unsigned_abs(),
        },
        None => Sized {
            below_zero: false,
            size: 0,
        },
    }
}
