// Which edition of include/lohitunga.h the archive is of.
ghost use Rattle.std.specs.Prelude.{◌≡◌};

// LOHITUNGA_INTERFACE of the header: it goes up when the layout of a struct or the meaning of a call changes.
#[unsafe(no_mangle)]
pub extern "C" fn lohitunga_interface() -> u32
    ensures { result ≡ 6 }
{
    cabinet::interface::lohitunga_interface()
}
